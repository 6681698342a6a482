// The first place of a byte.
ghost use Rattle.std.specs.Prelude.{◌≡◌, ◌==◌, position};

pub fn first_place(text: &[u8], byte: u8) -> Option<usize>
    ensures { result ≡ position (λ b. b == byte) text.now }
{
    text.iter().position(|&b| b == byte)
}
