// The operations that are made of AND requests.

#[derive(Clone, Copy, PartialEq, Eq, Debug)]
pub enum Operation {
    Or,
    Implies,
    Equiv,
    Xor,
}
