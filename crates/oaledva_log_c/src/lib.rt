// The four calls of `oaledva_log` as exports, for C and Rust.
#![tactic(auto)]

ghost use Rattle.std.specs.Prelude.{◌≡◌};
ghost use Rattle.board.specs.Lists.{is_yes};
ghost use Rattle.log_writer.specs.Writing.{written};
ghost use Rattle.oaledva_log.specs.States.{read, log_read, log_reason, log_place, wrote_in, log_write};

// Reads a piece of a log: whole entries into a list, six words for each.
#[unsafe(no_mangle)]
pub extern "C" fn oaledva_log_read(state: &mut [u64], piece: &[u8], entries: &mut [u64]) -> u64
    ensures { read result state.new entries.new ≡ log_read state.old piece.now entries.old }
{
    oaledva_log::oaledva_log_read(state, piece, entries)
}

// Why a log is refused, if it has ended here or not.
#[unsafe(no_mangle)]
pub extern "C" fn oaledva_log_reason(state: &[u64], ended: u32) -> u64
    ensures { result ≡ log_reason state.now (is_yes ended) }
{
    oaledva_log::oaledva_log_reason(state, ended)
}

// And where.
#[unsafe(no_mangle)]
pub extern "C" fn oaledva_log_place(state: &[u64]) -> u64
    ensures { result ≡ log_place state.now }
{
    oaledva_log::oaledva_log_place(state)
}

// Writes an entry at the front of a buffer.
#[unsafe(no_mangle)]
pub extern "C" fn oaledva_log_write(entry: &[u64], bytes: &mut [u8]) -> u64
    ensures { written (wrote_in result) bytes.new ≡ log_write entry.now bytes.old }
{
    oaledva_log::oaledva_log_write(entry, bytes)
}
