// Whether rights are well formed: no bit but the ten of a client, and none at all from the client count on.
ghost use Rattle.std.specs.Prelude.{◌≡◌};
ghost use Rattle.checks.specs.Test.{test};
ghost use Rattle.chain.specs.Rights.{rights_word, rights_formed};

fn word_fits(count: u64, client: u64, w: u64) -> bool
    ensures { result ≡ test (rights_word count client w) }
{
    (w % crate::CLOSE_OWN == 0) & ((client < count) | (w == 0))
}

// No early return: the compiler takes several words at a time.
pub fn rights_fit(rights: &[u64], count: u64) -> bool
    ensures { result ≡ test (rights_formed count rights.now) }
{
    let mut ok = true;
    for (i, &w) in rights.iter().enumerate() {
        ok &= word_fits(count, i as u64, w);
    }
    ok
}
