// Symbol types of at most 32 bits: a float holds each of their symbols, and each half between two of them.
// Each type shows the two laws for itself, since no implementation is for a list of types.
ghost use Rattle.std.specs.Prelude.{pos, negsuc, ◌≤ℤ◌};
ghost use Rattle.std.proofs.Common.{rules};

use models::symbol::Symbol;

pub trait NarrowSymbol: Symbol {
    ghost from: { negsuc 2147483647 ≤ℤ Self.Symbol.least };

    ghost to: { Self.Symbol.most ≤ℤ pos 4294967295 };
}

impl NarrowSymbol for i16 {
    ghost from = { Prim.search rules };

    ghost to = { Prim.search rules };
}

impl NarrowSymbol for u16 {
    ghost from = { Prim.search rules };

    ghost to = { Prim.search rules };
}

impl NarrowSymbol for i32 {
    ghost from = { Prim.search rules };

    ghost to = { Prim.search rules };
}

impl NarrowSymbol for u32 {
    ghost from = { Prim.search rules };

    ghost to = { Prim.search rules };
}
