ghost use Rattle.std.specs.Prelude.{◌&&◌, IsTrue, length, nat_le};
ghost use Rattle.std.specs.List.{list_all};
ghost use Rattle.adp_model.specs.Printable.{is_printable_byte};
ghost use Rattle.adp_model.specs.WellFormed.{is_of_version, is_well_formed};

use crate::grammar::Grammar;
use crate::sequence::Sequence;
use crate::text::Text;

/// A grammar, and the words that are asked about, at most 65,536, all printable. Its version is the format of its text:
/// in the first all terms are linear, in the second all are wide.
#[derive(Drop)]
pub struct Job {
    pub version: u8,
    pub grammar: Grammar,
    pub words: Sequence<Text>,
    pub ghost of_version: { IsTrue (is_of_version version grammar) },
    pub ghost well_formed: { IsTrue (is_well_formed grammar) },
    pub ghost printable_words: { IsTrue (list_all (list_all is_printable_byte) words) },
    pub ghost few_words: { IsTrue (nat_le (length words) 65536) },
}
