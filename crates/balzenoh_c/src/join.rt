// Join two run records, join a list.
ghost use Rattle.std.specs.Prelude.{length};
ghost use Rattle.balzenoh.specs.Exports.{Returned, lent_record, join_bytes, join_list_bytes};

// JOIN two records.
#[unsafe(no_mangle)]
pub extern "C" fn balzenoh_join(left: &[u8], right: &[u8], run: &mut [u8]) -> u8
    ensures { Returned (lent_record (join_bytes left.now right.now) (length run.old)) result run.new }
{
    balzenoh::join::balzenoh_join(left, right, run)
}

// JOIN A LIST.
#[unsafe(no_mangle)]
pub extern "C" fn balzenoh_join_list(records: &[u8], run: &mut [u8]) -> u8
    ensures { Returned (lent_record (join_list_bytes records.now) (length run.old)) result run.new }
{
    balzenoh::join::balzenoh_join_list(records, run)
}
