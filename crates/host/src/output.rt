// Writes an answer to the output buffer, figures big-endian.
ghost use Rattle.std.specs.Prelude.{◌≡◌, ◌+◌, ◌*◌, ◌≤◌, length};
ghost use Rattle.image_format.specs.Image.{be16, be32};
ghost use Rattle.host.specs.Layout.{route_bytes, answer_bytes, with_bytes, led_by};

// Bytes at an offset: the layout is the C header's.
fn put(output: &mut [u8], at: usize, bytes: &[u8])
    requires { at + length bytes.now ≤ length output.old }
    ensures { output.new ≡ with_bytes output.old at bytes.now }
{
    output[at..at + bytes.len()].copy_from_slice(bytes);
}

fn put_route(output: &mut [u8], at: usize, route: &[u16])
    requires { at + 2 * length route.now ≤ length output.old }
    ensures { output.new ≡ with_bytes output.old at (route_bytes route.now) }
{
    for (i, circuit) in route.iter().enumerate() {
        put(output, at + 2 * i, &circuit.to_be_bytes());
    }
}

// The answer at the start of the output, which has room for it; what stands past it stays.
pub fn put_answer(output: &mut [u8], first: &[u16], second: &[u16], cost: u32)
    requires first { length first.now ≤ 127 }
    requires second { length second.now ≤ 127 }
    requires room { 516 ≤ length output.old }
    ensures { output.new ≡ led_by (answer_bytes first.now second.now cost) output.old }
{
    put(output, 0, &(first.len() as u16).to_be_bytes());
    put(output, 2, &(second.len() as u16).to_be_bytes());
    put(output, 4, &cost.to_be_bytes());
    put_route(output, 8, first);
    put_route(output, 8 + 2 * first.len(), second);
}
