// A run's text, sealed into an output that holds zeros.
ghost use Rattle.std.specs.Prelude.{◌≡◌, ◌-◌, ◌%◌, ◌≤◌, length};
ghost use Rattle.blocks.specs.Words.{bytes_of};
ghost use Rattle.mode.specs.Mode.{plaintext, zero_block, blocks_of, pass};
ghost use Rattle.mode.specs.Aes.{aes};
ghost use Rattle.cipher.specs.Keys.{key_of, Expanded};
ghost use Rattle.blocks.specs.Bytes.{Fresh};
ghost use Rattle.calls.specs.Layout.{laid_out, laid_out_length};
ghost use Rattle.calls.specs.Work.{TextSealed};

use blocks::words::Words;
use runs::run::Task;

// The number of bytes of a run as it is laid out. A last run has at least one block.
pub fn laid_out_length(bytes: &[u8], last: bool) -> usize
    ensures { result ≡ laid_out_length last (length bytes.now) }
{
    if last {
        bytes.len() / 16 * 16 + 16
    } else {
        bytes.len()
    }
}

// The text with the padding of a last run, sealed under the mask of its first block.
pub fn seal_text(
    bytes: &[u8],
    last: bool,
    mask: Words,
    keys: &[u8; cipher::KEYS],
    out: &mut [u8],
) -> runs::run::Chain
    requires expanded { Expanded keys.now }
    requires fresh { Fresh out.old }
    requires bytes_in_bounds { laid_out_length last (length bytes.now) ≤ length out.old }
    requires bytes_value { laid_out_length last (length bytes.now) % 16 ≡ 0 }
    ensures { TextSealed (pass aes plaintext (key_of keys.now) (blocks_of (laid_out last bytes.now)) (bytes_of mask) zero_block) (length out.old - laid_out_length last (length bytes.now)) out.new (bytes_of result.mask) (bytes_of result.preauthenticator) }
{
    let size = laid_out_length(bytes, last);
    runs::run::run(Task::Seal, mask, keys, bytes, size / 16, out)
}
