// What --help and --version show.
use program::{Failed, Program};

pub fn help(program: &Program) -> Result<(), Failed> {
    program.write(
        b"hatchyarn: the arithmetic of the 8088, proved\n\nuse: hatchyarn [--] [FILE...] < requests > answers\n\nA request is a line of 20 hexadecimal digits: op (2), mode (2), flags (4), X (8),\nY (4). Its answer is a line of 18: status (2), flags (4), steps (4), R (4), S (4).\nWith no FILE, or where FILE is -, requests are read from standard input. Each\nfile's last line may lack its line feed. A line that is not 20 bytes long is\nanswered with status 1, however long it is. hatchyarn(1) says more.\n\nop      00 ADD, 01 ADC, 02 SUB, 03 SBB, 04 NEG, 05 SHL, 06 SHR, 07 SAR, 08 ROL,\n        09 ROR, 0A RCL, 0B RCR, 0C SHL with A, 10 multiply, 11 divide, 18 AAA,\n        19 AAS, 1A AAD, 1B DAA, 1C DAS\nmode    added up: 01 sixteen bits, 02 signed, 04 REP\nflags   added up: C 0001, P 0004, A 0010, Z 0040, S 0080, O 0800\nstatus  0 done, 1 not 20 bytes, 2 a byte is no digit, 3 op not listed, 4 mode does\n        not fit the op, 5 X, Y or the flags too large, 6 divide refused: divisor 0,\n        8 divide refused: quotient too wide, 9 divide refused: quotient does not\n        fit with its sign, and from C and Rust alone 7 no room\n\n  -h, --help  this text\n  --version   the version\n  --          what follows is a FILE, whatever its name\n\nThe exit status is 0 if everything was read, answered and written, and else 1.\n",
    )
}

pub fn version(program: &Program) -> Result<(), Failed> {
    program.write(b"hatchyarn 0.11.0\n")
}
