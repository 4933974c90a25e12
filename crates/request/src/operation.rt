// The operations. Each holds its own width, and multiply and divide their sign rule and REP.
#[derive(Clone, Copy, Debug, PartialEq, Eq)]
pub enum Width {
    Byte,
    Word,
}

// The mode of a multiply or divide. `rep` says that a REP prefix stood before it.
#[derive(Clone, Copy, Debug, PartialEq, Eq)]
pub struct Mode {
    pub width: Width,
    pub signed: bool,
    pub rep: bool,
}

#[derive(Clone, Copy, Debug, PartialEq, Eq)]
pub enum Alu {
    Add,
    Adc,
    Sub,
    Sbb,
    Neg,
    Shl,
    Shr,
    Sar,
    Rol,
    Ror,
    Rcl,
    Rcr,
    ShlAf,
}

#[derive(Clone, Copy, Debug, PartialEq, Eq)]
pub enum Decimal {
    Aaa,
    Aas,
    Aad,
    Daa,
    Das,
}

#[derive(Clone, Copy, Debug, PartialEq, Eq)]
pub enum Operation {
    Alu(Alu, Width),
    Multiply(Mode),
    Divide(Mode),
    Decimal(Decimal),
}
