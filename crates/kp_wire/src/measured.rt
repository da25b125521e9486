//! Types that are measured before they are written, so that memory alone can be refused while they are written.

ghost use Rattle.std.specs.Prelude.{◌≡◌, ◌+◌, ◌++◌, List, ℕ, OnOk};
ghost use Rattle.std.specs.List.{flat_map, AllByRecursion};
ghost use Rattle.kp_wire.specs.Sizes.{capped, IsSize};

use std::alloc::AllocError;

/// A type that is measured before it is written.
pub trait MeasuredField {
    /// The value's one spelling.
    ghost spells: { Self → List ℕ };

    /// The value has a spelling that is read as that value.
    ghost fits: { Self → Type 0 };

    /// How many bytes the value's spelling has, or u64::MAX where they are more. None where the value is longer
    /// than its format can say.
    fn size(&self) -> Option<u64>
        ensures { IsSize (fits self.now) (spells self.now) result };

    /// Appends the value's spelling. An `Err` may leave a part of it.
    fn put(&self, out: &mut Vec<u8>) -> Result<(), AllocError>
        requires { fits self.now }
        ensures { OnOk result (out.new.items ≡ out.old.items ++ spells self.now) };
}

/// The sum of two sizes, or u64::MAX where it is more.
#[inline]
pub fn add_sizes(a: u64, b: u64) -> u64
    ensures { result ≡ capped (a + b) }
{
    a.saturating_add(b)
}

/// How many bytes the values' spellings have, or u64::MAX where they are more. None where one of them doesn't fit.
pub fn sizes_of<T: MeasuredField>(items: &[T]) -> Option<u64>
    ensures { IsSize (AllByRecursion T.fits items.now) (flat_map T.spells items.now) result }
{
    let mut size = 0u64;
    for item in items {
        size = add_sizes(size, item.size()?);
    }
    Some(size)
}

/// Appends the values' spellings, one after the other. An `Err` may leave a part of them.
pub fn put_each<T: MeasuredField>(out: &mut Vec<u8>, items: &[T]) -> Result<(), AllocError>
    requires { AllByRecursion T.fits items.now }
    ensures { OnOk result (out.new.items ≡ out.old.items ++ flat_map T.spells items.now) }
{
    for item in items {
        item.put(out)?;
    }
    Ok(())
}
