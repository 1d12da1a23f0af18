// The keywords that are no instructions, in the order of the definition's list.
#[derive(Clone, Copy, Debug, PartialEq, Eq)]
pub enum Keyword {
    Var,
    Block,
    Phi,
    Reservedinst,
    Reservedconst,
    Pc,
    Blockpc,
    Infer,
    Result,
    Cand,
    PowerOfTwo,
    Negative,
    NonNegative,
    NonZero,
    HasExternalUses,
    SignBits,
    Range,
    DemandedBits,
    HarvestedFromUse,
}
