// A text that is written piece by piece.
ghost use Rattle.std.specs.Prelude.{◌≡◌, [], ◌∷◌};
ghost use Rattle.text.specs.Puts.{Puts, Room};

// The caller's bytes, and where the next one goes.
// In every contract `same_text` says that the text is still the caller's: which bytes are lent is no value of the fields, so no invariant and no
// definition over them can say it, and a caller's proof needs it beside what was put.
// `Room` asks that the piece fits, another piece in each contract.
#[derive(Drop)]
pub struct Writer<'a> {
    pub text: &'a mut [u8],
    pub at: usize,
}

impl<'a> Writer<'a> {
    pub fn put_byte(&mut self, byte: u8)
        requires { Room self.old.text.now self.old.at (byte ∷ []) }
        ensures puts { Puts self.old.text.now self.old.at (byte ∷ []) self.new.text.now self.new.at }
        ensures same_text { self.new.text.ghost_name ≡ self.old.text.ghost_name }
    {
        self.text[self.at] = byte;
        self.at += 1;
    }

    pub fn put_phrase(&mut self, phrase: &[u8])
        requires { Room self.old.text.now self.old.at phrase.now }
        ensures puts { Puts self.old.text.now self.old.at phrase.now self.new.text.now self.new.at }
        ensures same_text { self.new.text.ghost_name ≡ self.old.text.ghost_name }
    {
        let end = self.at + phrase.len();
        self.text[self.at..end].copy_from_slice(phrase);
        self.at = end;
    }
}
