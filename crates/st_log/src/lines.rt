//! The whole lines of texts, and batches.
ghost use Rattle.std.specs.Prelude.{◌≡◌, ◌↔◌, IsTrue};
ghost use Rattle.st_log.specs.Lines.{IsBatch, whole_len_from};

/// How many bytes at the front of a text are whole lines.
pub fn whole_len(bytes: &[u8]) -> usize
    ensures { result ≡ whole_len_from 0 bytes.now }
{
    let mut end = 0;
    let mut line = 0;
    for byte in bytes {
        if line == 0 && *byte != b'{' {
            return end;
        }
        line += 1;
        if 1 < line && *byte == b'\n' {
            end += line;
            line = 0;
        }
    }
    end
}

/// Whether a text is a batch: whole lines, at least one, and behind them an empty line.
pub fn is_batch(bytes: &[u8]) -> bool
    ensures { IsTrue result ↔ IsBatch bytes.now }
{
    let end = whole_len(bytes);
    0 < end && end < bytes.len() && bytes.len() - end == 1 && bytes[end] == b'\n'
}
