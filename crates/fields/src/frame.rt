// What a file and an image begin with: a version, and the length of the rest.
ghost use Rattle.std.specs.Prelude.{◌≡◌};
ghost use Rattle.ternary.specs.Refusals.{verdict};
ghost use Rattle.fields.specs.Fields.{frame_fault};

use ternary::refusal::Refusal;

// Refuses bytes that are too few for a rest of `least` bytes, are not of version 1, or say another length of the rest.
pub fn check_frame(bytes: &[u8], least: usize) -> Result<(), Refusal>
    ensures { result ≡ verdict (frame_fault least bytes.now) }
{
    let [version, l3, l2, l1, l0, rest @ ..] = bytes else {
        return Err(Refusal::Malformed(bytes.len()));
    };
    if rest.len() < least {
        Err(Refusal::Malformed(bytes.len()))
    } else if *version != 1 {
        Err(Refusal::Malformed(0))
    } else if u32::from_be_bytes([*l3, *l2, *l1, *l0]) as usize != rest.len() {
        Err(Refusal::Malformed(1))
    } else {
        Ok(())
    }
}
