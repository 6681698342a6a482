// Words rearranged into bytes for storage, and restored. They need not be a log.
ghost use Rattle.capi.specs.StorageCalls.{RearrangeCall, RestoreCall};

#[unsafe(no_mangle)]
pub extern "C" fn cindrolf_rearrange(words: &[u64], bytes: &mut [u8]) -> u64
    ensures { RearrangeCall words.now bytes.old result bytes.new }
{
    capi::rearranged::cindrolf_rearrange(words, bytes)
}

#[unsafe(no_mangle)]
pub extern "C" fn cindrolf_restore(bytes: &[u8], words: &mut [u64]) -> u64
    ensures { RestoreCall bytes.now words.old result words.new }
{
    capi::rearranged::cindrolf_restore(bytes, words)
}
