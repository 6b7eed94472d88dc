//! The numbers that the generator draws.
ghost use Rattle.std.specs.Prelude.{◌≡◌, ◌<◌};
ghost use Rattle.run_meaning.specs.Generator as meant;

/// The number after a draw.
fn drawn_from(number: u32) -> u32
    ensures { result ≡ meant.drawn_from number }
{
    ((number as u64 * 1_103_515_245 + 12_345) % (1 << 31)) as u32
}

/// The number after so many draws.
fn number_after(start: u32, draws: u32) -> u32
    ensures { result ≡ meant.number_after start draws }
{
    let mut number = start;
    for _ in 0..draws {
        number = drawn_from(number);
    }
    number
}

/// What the draw of this number, counted from 1, gives below a bound. All draws up to it are made anew: a generator
/// makes some thousands at most.
pub(crate) fn draw_below(start: u32, draw: u32, bound: u32) -> u32
    requires { 0 < bound }
    ensures value { result ≡ meant.draw_below start draw bound }
    ensures below { result < bound }
{
    number_after(start, draw) / 65_536 % bound
}
