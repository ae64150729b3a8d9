ghost use Rattle.std.specs.Prelude.{◌≡◌};
ghost use Rattle.jv_verify.specs.declared.no_table.NoTable.TheVariants as tables;

use std::alloc::AllocError;

/// Why a method has no table of frames by its maps.
#[derive(Clone, Copy, Debug, PartialEq, Eq)]
pub enum NoTable {
    /// The least offset at which it has none.
    At { pc: u16 },
    /// Memory is wanting.
    Memory,
}

impl From<AllocError> for NoTable {
    ghost from_gives = { λ _ e. e ≡ tables.Memory };

    fn from(_e: AllocError) -> NoTable {
        NoTable::Memory
    }
}
