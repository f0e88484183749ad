// The sorts of symbols, by which the reader goes.

// A semicolon; a brace that an action opens; a name; what is a value; what follows a value; a condition; what an action or a brace
// may follow; the body of a class; a declaration.
#[derive(Clone, Copy, Debug, PartialEq, Eq)]
pub enum Sort {
    Other,
    Semi,
    Brace,
    Named,
    Value,
    More,
    Variable,
    Block,
    Body,
    Text,
}
