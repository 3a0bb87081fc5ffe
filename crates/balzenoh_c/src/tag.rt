// Close a record, test a tag.
ghost use Rattle.std.specs.Prelude.{◌≡◌, length};
ghost use Rattle.mode.specs.Mode.{by_cipher, by_sha1};
ghost use Rattle.balzenoh.specs.Exports.{Returned, lent_tag, close_bytes, test_bytes};

// CLOSE a record into its tag, by the cipher.
#[unsafe(no_mangle)]
pub extern "C" fn balzenoh_close(key: &[u8], iv: &[u8], run: &[u8], tag: &mut [u8]) -> u8
    ensures { Returned (lent_tag by_cipher (close_bytes by_cipher key.now iv.now run.now) (length tag.old)) result tag.new }
{
    balzenoh::tag::balzenoh_close(key, iv, run, tag)
}

// CLOSE a record into its tag, by SHA-1.
#[unsafe(no_mangle)]
pub extern "C" fn balzenoh_close_sha1(key: &[u8], iv: &[u8], run: &[u8], tag: &mut [u8]) -> u8
    ensures { Returned (lent_tag by_sha1 (close_bytes by_sha1 key.now iv.now run.now) (length tag.old)) result tag.new }
{
    balzenoh::tag::balzenoh_close_sha1(key, iv, run, tag)
}

// TEST a tag against a record, by the cipher.
#[unsafe(no_mangle)]
pub extern "C" fn balzenoh_test(key: &[u8], iv: &[u8], run: &[u8], tag: &[u8]) -> u8
    ensures { result ≡ test_bytes by_cipher key.now iv.now run.now tag.now }
{
    balzenoh::tag::balzenoh_test(key, iv, run, tag)
}

// TEST a tag against a record, by SHA-1.
#[unsafe(no_mangle)]
pub extern "C" fn balzenoh_test_sha1(key: &[u8], iv: &[u8], run: &[u8], tag: &[u8]) -> u8
    ensures { result ≡ test_bytes by_sha1 key.now iv.now run.now tag.now }
{
    balzenoh::tag::balzenoh_test_sha1(key, iv, run, tag)
}
