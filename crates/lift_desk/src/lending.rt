//! Whether the clerk's seats have lent the right to look ahead of them.

/// Whether the clerk's seat at each table has lent another one the right to look ahead of it.
pub trait Lending {
    ghost use Rattle.std.specs.Prelude.{Bool};

    ghost lends: { Bool };
}

/// It has lent it to none.
#[derive(Drop)]
pub struct Whole;

/// One seat looks ahead of it at each table, until it is joined in again.
#[derive(Drop)]
pub struct Lender;

impl Lending for Whole {
    ghost use Rattle.std.specs.Prelude.{false};

    ghost lends = { false };
}

impl Lending for Lender {
    ghost use Rattle.std.specs.Prelude.{true};

    ghost lends = { true };
}
