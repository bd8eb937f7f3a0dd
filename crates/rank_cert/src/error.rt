// Why a text gives no certificate.

ghost use Rattle.std.specs.Prelude.{◌≡◌};
ghost use Rattle.rank_cert.specs.Refusal.{refusal_number};

use sync_topo::LineId;
use thiserror::Error;

/// The first rule for certificates that a text breaks. Rows count from 1 after the header.
///
/// This project's own.
#[derive(Clone, Copy, Debug, PartialEq, Eq, Error)]
pub enum CertErr {
    /// The first record isn't `line,rank`, or there is none.
    #[error("the first record isn't line,rank")]
    Header,
    /// The row hasn't two fields, or the second is no number of at most 2^64 - 1.
    #[error("row {0}: not LINE,RANK")]
    Row(u64),
    /// The first field is not the name of a nominated line.
    #[error("row {0}: not a nominated line")]
    Line(u64),
    /// An earlier row has the line.
    #[error("row {0}: the line stands in an earlier row")]
    Twice(u64),
    /// No row has this nominated line, and each one of lower number has a row.
    #[error("line {} has no row", .0.0)]
    Missing(LineId),
}

impl CertErr {
    /// The number by which the refusal is printed, from 34 to 38.
    ///
    /// This project's own.
    pub fn number(self) -> u8
        ensures { result ≡ refusal_number self }
    {
        match self {
            CertErr::Header => 34,
            CertErr::Row(_) => 35,
            CertErr::Line(_) => 36,
            CertErr::Twice(_) => 37,
            CertErr::Missing(_) => 38,
        }
    }
}
