// Words rearranged into bytes for storage, and restored. They need not be a log.
ghost use Rattle.capi.specs.StorageCalls.{RearrangeCall, RestoreCall};

pub fn cindrolf_rearrange(words: &[u64], bytes: &mut [u8]) -> u64
    ensures { RearrangeCall words.now bytes.old result bytes.new }
{
    let a = storage::rearrange::rearrange(words, bytes);
    crate::number::answer_number(a)
}

pub fn cindrolf_restore(bytes: &[u8], words: &mut [u64]) -> u64
    ensures { RestoreCall bytes.now words.old result words.new }
{
    let a = storage::restore::restore(bytes, words);
    crate::number::answer_number(a)
}
