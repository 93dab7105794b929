// What is printed: a line for each call, words and numbers with a space between them.
use crate::matrices::Kind;
use lapjv::{Counts, Refusal};

fn number(k: usize) {
    io::write_all(1, b" ");
    io::print_decimal(1, k as u64);
}

pub(crate) fn numbers(s: &[usize]) {
    io::write_all(1, b" |");
    for k in s {
        number(*k);
    }
}

pub(crate) fn end() {
    io::write_all(1, b"\n");
}

fn name(kind: Kind) -> &'static str {
    match kind {
        Kind::Uniform => "uniform",
        Kind::Tied => "tied",
        Kind::Integers => "integers",
        Kind::Product => "product",
        Kind::Nans => "nans",
        Kind::NanLines => "nan_lines",
        Kind::Infinities => "infinities",
        Kind::Zeros => "zeros",
        Kind::MoreBoxes => "more_boxes",
        Kind::MoreTracks => "more_tracks",
        Kind::Worst => "worst",
        Kind::Scans => "scans",
        Kind::Equal => "equal",
        Kind::NearLarge => "near_large",
        Kind::Wide => "wide",
        Kind::Any => "any",
        Kind::AllNan => "all_nan",
    }
}

pub(crate) fn head(kind: Kind, n: usize, digest: u64) {
    io::write_all(1, name(kind).as_bytes());
    number(n);
    io::write_all(1, b" ");
    io::print_hex(1, digest, 16);
}

pub(crate) fn lengths(n: usize, cells: usize, rows: usize, columns: usize) {
    io::write_all(1, b"refused");
    number(n);
    number(cells);
    number(rows);
    number(columns);
}

// 0, the turns and the scans of an accepted call; the number of a refusal in the scope document and two zeros.
pub(crate) fn answer(a: Result<Counts, Refusal>) {
    io::write_all(1, b" |");
    match a {
        Ok(counts) => {
            number(0);
            number(counts.turns);
            number(counts.scans);
        }
        Err(why) => {
            number(u32::from(why) as usize);
            number(0);
            number(0);
        }
    }
}
