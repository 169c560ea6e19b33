//! Parts of lent bytes: reading one, and overwriting one under a power that may cut that short.
ghost use Rattle.std.specs.Prelude.{◌≡◌, ◌+◌, ◌≤◌, length, Some};
ghost use Rattle.store.specs.Overwriting.{part, spent, overwritten, overwritten_at};

use crate::power::Power;

/// The `N` bytes from `place` on.
// The log has one of its own: one for both would be public, and have to answer for every place.
pub(crate) fn part_at<const N: usize>(bytes: &[u8], place: usize) -> &[u8; N]
    requires { place + N ≤ length bytes.now }
    ensures { result.now ≡ part place N bytes.now }
{
    bytes[place..].first_chunk().unwrap()
}

/// Writes as many bytes as the budget reaches, and the residue to the one after them, which is
/// caught. Answers the power that is left, or `None` where the write is cut short.
fn overwrite(part: &mut [u8], new: &[u8], power: Power) -> Option<Power>
    requires { length part.old ≡ length new.now }
    ensures after { part.new ≡ overwritten power new.now part.old }
    ensures left { result ≡ spent (length new.now) (Some power) }
{
    let landed = new.len().min(usize::from(power.budget));
    part[..landed].copy_from_slice(&new[..landed]);
    if landed < new.len() {
        part[landed] = power.residue;
        return None;
    }
    Some(Power {
        budget: power.budget - landed as u16,
        ..power
    })
}

/// Writes the part from `place` on with the power that is left.
pub(crate) fn overwrite_at(
    bytes: &mut [u8],
    place: usize,
    new: &[u8],
    power: Option<Power>,
) -> Option<Power>
    requires { place + length new.now ≤ length bytes.old }
    ensures after { bytes.new ≡ overwritten_at power place new.now bytes.old }
    ensures left { result ≡ spent (length new.now) power }
{
    let end = place + new.len();
    overwrite(&mut bytes[place..end], new, power?)
}
