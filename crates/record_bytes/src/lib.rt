#![tactic(auto)]
// A run record as 24 bytes, as programs in C and Rust hold it.
ghost use Rattle.std.specs.Prelude.{◌≡◌, ◌++◌, ◌≤◌, length, drop};
ghost use Rattle.record_bytes.specs.Encoding.{encoded, decoded};

use mode::RunRecord;

pub fn decode(bytes: &[u8]) -> RunRecord
    requires { length bytes.now ≡ 24 }
    ensures { result ≡ decoded bytes.now }
{
    let first = u32::from_be_bytes([bytes[0], bytes[1], bytes[2], bytes[3]]);
    let count = u32::from_be_bytes([bytes[4], bytes[5], bytes[6], bytes[7]]);
    let preauthenticator = blocks::words::load(bytes, 8);
    RunRecord {
        first,
        count,
        preauthenticator,
    }
}

// A record to the front of an output.
pub fn encode(run: RunRecord, out: &mut [u8])
    requires { 24 ≤ length out.old }
    ensures { out.new ≡ encoded run ++ drop 24 out.old }
{
    blocks::bytes::put(out, 0, &run.first.to_be_bytes());
    blocks::bytes::put(out, 4, &run.count.to_be_bytes());
    blocks::words::store(out, 8, run.preauthenticator);
}
