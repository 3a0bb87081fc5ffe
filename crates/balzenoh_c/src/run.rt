// Seal a run, check a run.
ghost use Rattle.std.specs.Prelude.{length as length_of};
ghost use Rattle.balzenoh.specs.Exports.{Returned, ReportedRun, lent_record, check_run_bytes, seal_run_bytes};

// SEAL A RUN. It is the last one unless `last` is 0.
#[unsafe(no_mangle)]
pub extern "C" fn balzenoh_seal_run(
    key: &[u8],
    iv: &[u8],
    first: u32,
    last: u8,
    bytes: &[u8],
    out: &mut [u8],
    length: &mut usize,
    run: &mut [u8],
) -> u8
    ensures { ReportedRun (seal_run_bytes key.now iv.now first last bytes.now (length_of out.old) (length_of run.old)) result length.new out.new run.new }
{
    balzenoh::run::balzenoh_seal_run(key, iv, first, last, bytes, out, length, run)
}

// CHECK A RUN of ciphertext.
#[unsafe(no_mangle)]
pub extern "C" fn balzenoh_check_run(
    key: &[u8],
    iv: &[u8],
    first: u32,
    bytes: &[u8],
    run: &mut [u8],
) -> u8
    ensures { Returned (lent_record (check_run_bytes key.now iv.now first bytes.now) (length_of run.old)) result run.new }
{
    balzenoh::run::balzenoh_check_run(key, iv, first, bytes, run)
}
