// Figures, circuits and names as an image writes them; figures have the high byte first.
ghost use Rattle.std.specs.Prelude.{◌≡◌, ◌+◌, ◌<◌, ◌≤◌, length, take, drop};
ghost use Rattle.image.specs.Layout.{after_place, circuit_from, name_from};

use network::Circuit;

// How many bytes a circuit's record has.
pub(crate) const CIRCUIT_BYTES: usize = 14;

// So many bytes from an offset on.
pub(crate) fn bytes_at<const N: usize>(image: &[u8], at: usize) -> [u8; N]
    requires { at + N ≤ length image.now }
    ensures { result ≡ take N (drop at image.now) }
{
    *image[at..at + N].first_chunk().unwrap()
}

// The circuit whose record begins at `at`.
pub(crate) fn read_circuit(image: &[u8], at: usize) -> Circuit
    requires { at + 14 ≤ length image.now }
    ensures { result ≡ circuit_from image.now at }
{
    Circuit {
        from: u16::from_be_bytes(bytes_at(image, at + 2)),
        to: u16::from_be_bytes(bytes_at(image, at + 4)),
        bandwidth: u32::from_be_bytes(bytes_at(image, at + 6)),
        cost: u32::from_be_bytes(bytes_at(image, at + 10)),
    }
}

// Where the place whose record begins at `at` ends.
pub(crate) fn after_place(image: &[u8], at: usize) -> usize
    requires { after_place image.now at ≤ length image.now }
    ensures { result ≡ after_place image.now at }
{
    at + 3 + image[at + 2] as usize
}

// The name of the place whose record begins at `at`, lent from where it stands.
pub(crate) fn read_name(image: &[u8], at: usize) -> &[u8]
    requires { after_place image.now at ≤ length image.now }
    ensures { result.now ≡ name_from image.now at }
{
    &image[at + 3..after_place(image, at)]
}
