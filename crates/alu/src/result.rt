// What the operations answer: the result with the flags that the operation names, and no others.

#[derive(Drop)]
pub struct ResultC<N> {
    pub result: N,
    pub carry: bool,
}

#[derive(Drop)]
pub struct ResultCo<N> {
    pub result: N,
    pub carry: bool,
    pub overflow: bool,
}

#[derive(Drop)]
pub struct ResultCoa<N> {
    pub result: N,
    pub carry: bool,
    pub overflow: bool,
    pub aux_carry: bool,
}
