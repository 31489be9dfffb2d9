// The figures of a part of a batch.
ghost use Rattle.std.specs.Prelude.{◌≡◌, ◌+◌, ◌*◌, ◌<◌, ◌^◌, ◌∷◌, map, get_or};
ghost use Rattle.words.specs.Text.{text};
ghost use Rattle.batch.specs.Batch.{month_in, rows_at, figures_at, figures_behind};
ghost use Rattle.batch.specs.Bytes.{number_at, signed_of};
ghost use Rattle.printing.specs.Decimals.{decimal, integer, spaced};
ghost use Rattle.printing.specs.Lines.{printed};
ghost use Rattle.printing.specs.Written.{followed};
ghost use Rattle.extract.specs.Lines.{settle_line};

use batch::{Part, month, part_at};
use printing::Out;

// The byte at a place; 0 behind the end.
fn byte_at(file: &[u8], at: usize) -> u8
    ensures { result ≡ get_or file.now at 0 }
{
    file.get(at).copied().unwrap_or(0)
}

// The signed number in eight bytes, least byte first.
#[tactic(auto, using(crate::proofs::FigureLaws::eight_bytes))]
fn signed8(file: &[u8], at: usize) -> i64
    requires { at + 8 < 2 ^ 64 }
    ensures { result ≡ signed_of (number_at file.now at 8) }
{
    i64::from_le_bytes([
        byte_at(file, at),
        byte_at(file, at + 1),
        byte_at(file, at + 2),
        byte_at(file, at + 3),
        byte_at(file, at + 4),
        byte_at(file, at + 5),
        byte_at(file, at + 6),
        byte_at(file, at + 7),
    ])
}

// The figures of a part, with a blank before each.
#[tactic(auto, using(crate::proofs::FigureLaws::figures_first, crate::proofs::FigureLaws::figures_next))]
fn put_figures(out: &mut Out, file: &[u8], part: Part)
    requires { part.offset + 2 + 8 * part.rows < 2 ^ 64 }
    ensures { out.new ≡ followed out.old (spaced (map integer (figures_behind file.now part.offset part.rows))) }
{
    for k in 0..part.rows {
        out.spaced(signed8(file, part.offset + 2 + 8 * k));
    }
}

// settle P MONTH FIGURE..: part k of a batch.
pub fn put_settlement(out: &mut Out, participant: u64, file: &[u8], k: u32)
    ensures { out.new ≡ followed out.old
        (printed (settle_line participant file.now k).request (settle_line participant file.now k).numbers) }
{
    out.words(b"settle", &[participant, month(file) as u64]);
    put_figures(out, file, part_at(file, k))
}
