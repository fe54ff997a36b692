// What an image holds many of, one after another: the codes of the states, and the entries.
ghost use Rattle.std.specs.Prelude.{◌≡◌, ℕ, ◌+◌, ◌*◌, ◌^◌, ◌<◌, ◌≤◌, List, map, length, Option};
ghost use Rattle.std.specs.List.{flat_map, range_with_len};
ghost use Rattle.ternary.specs.Refusals.{verdict};
ghost use Rattle.fields.specs.Fields.{each_fault, written};
ghost use Rattle.pair_image.specs.Rules.{item_in};

use ternary::refusal::Refusal;

// An item of an image, by the rules for its fields.
pub(crate) trait Item: Copy {
    // How many bytes an item takes.
    ghost SIZE: { ℕ };

    const SIZE: usize;

    // Where an item at an offset breaks a rule, if codes are below a limit.
    ghost fault: { ℕ → ℕ → Self → Option ℕ };

    // Refuses the first field of the item, which stands at `at`, that breaks a rule.
    fn check(self, limit: u32, at: usize) -> Result<(), Refusal>
        requires { at + SIZE < 2 ^ 32 }
        ensures { result ≡ verdict (fault limit at self) };
}

// An item that is read from bytes, whether or not it keeps the rules.
pub(crate) trait Readable: Item {
    // The item in the bytes from an offset on.
    ghost said: { List ℕ → ℕ → Self };

    // Reads the item at `at`.
    fn read(bytes: &[u8], at: usize) -> Self
        requires { at + Self.SIZE < 2 ^ 32 }
        ensures { result ≡ said bytes.now at };
}

// An item that is written as bytes.
pub(crate) trait Writable: Item {
    // The bytes of an item.
    ghost bytes: { Self → List ℕ };

    // Writes the item over the bytes at `at`.
    fn put(self, out: &mut [u8], at: usize)
        requires { at + Self.SIZE ≤ length out.old }
        ensures { out.new ≡ written out.old at (bytes self) };

    // They are as many as an item takes.
    ghost long: { (item : Self) → length (bytes item) ≡ Self.SIZE };
}

// Refuses the first fault of the items that some bytes hold from `first` on.
pub(crate) fn check_in<T: Readable>(
    bytes: &[u8],
    limit: u32,
    first: usize,
    count: usize,
) -> Result<(), Refusal>
    requires { first + T.SIZE * count < 2 ^ 32 }
    ensures { result ≡ verdict (each_fault (T.fault limit) T.SIZE first
        (map (item_in T.SIZE T.said bytes.now first) (range_with_len 0 count))) }
{
    // The index gives the offset of the item too.
    for index in 0..count {
        let at = first + T::SIZE * index;
        T::read(bytes, at).check(limit, at)?;
    }
    Ok(())
}

// Refuses the first fault that some items would have in an image from `first` on.
pub(crate) fn check_all<T: Item>(items: &[T], limit: u32, first: usize) -> Result<(), Refusal>
    requires { first + T.SIZE * length items.now < 2 ^ 32 }
    ensures { result ≡ verdict (each_fault (T.fault limit) T.SIZE first items.now) }
{
    for (index, item) in items.iter().enumerate() {
        item.check(limit, first + T::SIZE * index)?;
    }
    Ok(())
}

// Writes some items from `first` on.
pub(crate) fn put_all<T: Writable>(out: &mut [u8], first: usize, items: &[T])
    requires { first + T.SIZE * length items.now ≤ length out.old }
    ensures { out.new ≡ written out.old first (flat_map T.bytes items.now) }
{
    for (index, item) in items.iter().enumerate() {
        item.put(out, first + T::SIZE * index);
    }
}

// Writes a field over the bytes at `at`.
pub(crate) fn put(out: &mut [u8], at: usize, field: &[u8])
    requires { at + length field.now ≤ length out.old }
    ensures { out.new ≡ written out.old at field.now }
{
    let end = at + field.len();
    out[at..end].copy_from_slice(field);
}
