// The front page: what this crate passes on is the library. specs/FrontPage.antt states what follows from the entries' promises.
pub use certificate_check::check_certificate;
pub use drafts::{
    DraftAnswer, DraftCounts, TablePlace, add_rule, draft_counts, draft_room, draft_table,
    new_draft, return_to_mark, set_mark, table_place, withdraw_rule,
};
pub use grammar::{Cause, CheckedGrammar, TableChecked, TableVerdict};
pub use joining::{join_texts, joined_name, joined_place, write_joined};
pub use modules::Place;
pub use readings::ReadBack;
pub use readings_read::read_back;
pub use report::{Reported, report};
pub use rooms::{SearchRoom, search_room};
pub use search::{SearchVerdict, search};
pub use sentence_trees::{find_trees, trees_room};
pub use steps::{StepAnswer, nth_step};
pub use table_check::check_table;
pub use text::{TextLength, TextRead, TextWritten};
pub use text_read::read_text;
pub use text_write::{write_text, written_length};
pub use trees::{TreesFound, TreesRoom};
pub use triples::{CheckVerdict, Move, Step};
pub use witness_check::check_witness;
pub use witness_records::{TripleRecord, check_witness_records};
