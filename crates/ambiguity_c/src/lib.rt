// The entries of crate ambiguity for C: each answers as its entry does, with the answer told in numbers. Nothing is required of
// a caller beyond the form of what is lent. bindings/c/ambiguity.h declares these functions.

#![tactic(auto)]

mod replies;

ghost use Rattle.std.specs.Prelude.{get_or, ◌≡◌};
ghost use Rattle.channels.specs.Commands.{certificate};
ghost use Rattle.channels.specs.Promise.{plan_room};
ghost use Rattle.drafts.specs.Draft.{add, withdraw, mark, return};
ghost use Rattle.drafts.specs.Reading.{CountsDraft, PlacesTable};
ghost use Rattle.drafts.specs.Row.{draft_room};
ghost use Rattle.grammar.specs.TableCheck.{TableAnswer};
ghost use Rattle.modules.specs.Promise.{ShowsPlace};
ghost use Rattle.rooms.specs.Room.{RoomAnswer};
ghost use Rattle.search.specs.Promise.{lent};
ghost use Rattle.steps.specs.Steps.{NthAnswer};
ghost use Rattle.text.specs.Promise.{LengthAnswer};
ghost use Rattle.trees.specs.Promise.{TreesRoomAnswer};
ghost use Rattle.triples.specs.Verdict.{CertificateAnswer, WitnessAnswer};
ghost use Rattle.witness_records.specs.Records.{RecordsAnswer};
ghost use Rattle.ambiguity_c.specs.Replies.{table_reply, step_reply, check_reply, room_reply, length_reply, part_reply, trees_room_reply, draft_counts_reply, draft_table_reply};
ghost use Rattle.ambiguity_c.specs.Lent.{Replies, RepliesSearch, RepliesRead, RepliesWritten, RepliesJoin, RepliesJoined, RepliesReport, RepliesBack, RepliesTrees, RepliesBegun, RepliesEdited, RepliesPlan};

use ambiguity::TripleRecord;

// In every reply `cause` is 0, or the number of a cause with its position `at`; what a case does not have is 0.
#[repr(C)]
#[derive(Drop)]
pub struct TableReply {
    pub cause: u64,
    pub at: u64,
    pub states: u64,
}

// 0 nothing, 1 an opening, 2 a closing, 3 a symbol; the number of the rule, or the code.
#[repr(C)]
#[derive(Drop)]
pub struct MoveReply {
    pub moved: u64,
    pub number: u64,
}

// 0 refused, 1 a record, 2 no more.
#[repr(C)]
#[derive(Drop)]
pub struct StepReply {
    pub cause: u64,
    pub at: u64,
    pub kind: u64,
    pub layer: u64,
    pub left: u64,
    pub right: u64,
    pub on_left: MoveReply,
    pub on_right: MoveReply,
}

#[repr(C)]
#[derive(Drop)]
pub struct CheckReply {
    pub cause: u64,
    pub at: u64,
}

// 0 refused, 1 unambiguous, 2 potential; the size, or the witness's number of entries; how many successors were looked at.
#[repr(C)]
#[derive(Drop)]
pub struct SearchReply {
    pub cause: u64,
    pub at: u64,
    pub verdict: u64,
    pub count: u64,
    pub looked: u64,
}

// Q, the certificate's bytes, the entries of each row, the number of moves.
#[repr(C)]
#[derive(Drop)]
pub struct RoomReply {
    pub cause: u64,
    pub at: u64,
    pub states: u64,
    pub certificate: u64,
    pub entries: u64,
    pub moves: u64,
}

#[repr(C)]
#[derive(Drop)]
pub struct ReadReply {
    pub cause: u64,
    pub at: u64,
    pub terminals: u64,
    pub nonterminals: u64,
    pub entries: u64,
    pub states: u64,
}

#[repr(C)]
#[derive(Drop)]
pub struct WriteReply {
    pub cause: u64,
    pub at: u64,
    pub length: u64,
}

#[repr(C)]
#[derive(Drop)]
pub struct LengthReply {
    pub cause: u64,
    pub at: u64,
    pub length: u64,
}

#[repr(C)]
#[derive(Drop)]
pub struct ReportReply {
    pub cause: u64,
    pub at: u64,
    pub length: u64,
}

// Whose fault it is: 0 nothing is refused, 1 the grammar's text is, 2 the lines are or a row is too short; how many letters.
#[repr(C)]
#[derive(Drop)]
pub struct ReadBackReply {
    pub cause: u64,
    pub at: u64,
    pub part: u64,
    pub left: u64,
    pub right: u64,
}

// Where a name stands: 0 nowhere, 1 in the robot's text, 2 in the module's; its start and its length.
#[repr(C)]
#[derive(Drop)]
pub struct PartReply {
    pub text: u64,
    pub start: u64,
    pub length: u64,
}

// 0 refused, 1 no tree, 2 one, 3 several; how many rules the one tree has.
#[repr(C)]
#[derive(Drop)]
pub struct TreesReply {
    pub cause: u64,
    pub at: u64,
    pub found: u64,
    pub count: u64,
}

// The entries of the work row.
#[repr(C)]
#[derive(Drop)]
pub struct TreesRoomReply {
    pub cause: u64,
    pub at: u64,
    pub entries: u64,
}

#[repr(C)]
#[derive(Drop)]
pub struct DraftReply {
    pub cause: u64,
    pub at: u64,
}

// t, n, the number of rules, the entries of their table, Q.
#[repr(C)]
#[derive(Drop)]
pub struct DraftCountsReply {
    pub cause: u64,
    pub at: u64,
    pub terminals: u64,
    pub nonterminals: u64,
    pub rules: u64,
    pub entries: u64,
    pub states: u64,
}

// Where in the row the draft's table stands.
#[repr(C)]
#[derive(Drop)]
pub struct DraftTableReply {
    pub cause: u64,
    pub at: u64,
    pub start: u64,
    pub entries: u64,
}

// 0 refused, 1 no plan, 2 the plan; how many rules it has.
#[repr(C)]
#[derive(Drop)]
pub struct PlanReply {
    pub cause: u64,
    pub at: u64,
    pub found: u64,
    pub count: u64,
}

#[unsafe(no_mangle)]
pub extern "C" fn ambiguity_check_table(t: usize, n: usize, table: &[u16]) -> TableReply
    ensures { Replies (TableAnswer t n table.now) table_reply result }
{
    let checked = ambiguity::check_table(t, n, table);
    let verdict = checked.verdict;
    replies::table_told(verdict, checked.grammar.states)
}

#[unsafe(no_mangle)]
pub extern "C" fn ambiguity_nth_step(
    t: usize,
    n: usize,
    table: &[u16],
    callers: usize,
    layer: usize,
    left: usize,
    right: usize,
    nth: usize,
) -> StepReply
    ensures { Replies (NthAnswer t n table.now callers layer left right nth) step_reply result }
{
    let answer = ambiguity::nth_step(t, n, table, callers, layer, left, right, nth);
    replies::step_told(answer)
}

#[unsafe(no_mangle)]
pub extern "C" fn ambiguity_check_certificate(
    t: usize,
    n: usize,
    table: &[u16],
    callers: usize,
    bytes: &[u8],
) -> CheckReply
    ensures { Replies (CertificateAnswer t n table.now callers bytes.now) check_reply result }
{
    let verdict = ambiguity::check_certificate(t, n, table, callers, bytes);
    replies::check_told(verdict)
}

#[unsafe(no_mangle)]
pub extern "C" fn ambiguity_check_witness(
    t: usize,
    n: usize,
    table: &[u16],
    callers: usize,
    row: &[u32],
) -> CheckReply
    ensures { Replies (WitnessAnswer t n table.now callers row.now) check_reply result }
{
    let verdict = ambiguity::check_witness(t, n, table, callers, row);
    replies::check_told(verdict)
}

#[unsafe(no_mangle)]
pub extern "C" fn ambiguity_check_witness_records(
    t: usize,
    n: usize,
    table: &[u16],
    callers: usize,
    entries: &[TripleRecord],
) -> CheckReply
    ensures { Replies (RecordsAnswer t n table.now callers entries.now) check_reply result }
{
    let verdict = ambiguity::check_witness_records(t, n, table, callers, entries);
    replies::check_told(verdict)
}

#[unsafe(no_mangle)]
pub extern "C" fn ambiguity_search(
    t: usize,
    n: usize,
    table: &[u16],
    callers: usize,
    certificate: &mut [u8],
    queue: &mut [u32],
    parents: &mut [u32],
    witness: &mut [u32],
) -> SearchReply
    ensures { RepliesSearch t n table.now callers (lent certificate.old queue.old parents.old witness.old) result
        (lent certificate.new queue.new parents.new witness.new) }
{
    let answer = ambiguity::search(t, n, table, callers, certificate, queue, parents, witness);
    replies::search_told(answer)
}

#[unsafe(no_mangle)]
pub extern "C" fn ambiguity_read_text(
    text: &[u8],
    table: &mut [u16],
    starts: &mut [u32],
    lengths: &mut [u32],
) -> ReadReply
    ensures { RepliesRead text.now table.old starts.old lengths.old result table.new starts.new lengths.new }
{
    let answer = ambiguity::read_text(text, table, starts, lengths);
    replies::read_told(answer)
}

#[unsafe(no_mangle)]
pub extern "C" fn ambiguity_write_text(
    t: usize,
    n: usize,
    table: &[u16],
    bytes: &[u8],
    starts: &[u32],
    lengths: &[u32],
    out: &mut [u8],
) -> WriteReply
    ensures { RepliesWritten t n table.now bytes.now starts.now lengths.now
        out.old result out.new }
{
    let answer = ambiguity::write_text(t, n, table, bytes, starts, lengths, out);
    replies::write_told(answer)
}

#[unsafe(no_mangle)]
pub extern "C" fn ambiguity_search_room(
    t: usize,
    n: usize,
    table: &[u16],
    callers: usize,
) -> RoomReply
    ensures { Replies (RoomAnswer t n table.now callers) room_reply result }
{
    let answer = ambiguity::search_room(t, n, table, callers);
    replies::room_told(answer)
}

#[unsafe(no_mangle)]
pub extern "C" fn ambiguity_written_length(
    t: usize,
    n: usize,
    table: &[u16],
    bytes: &[u8],
    starts: &[u32],
    lengths: &[u32],
) -> LengthReply
    ensures { Replies (LengthAnswer t n table.now bytes.now starts.now lengths.now) length_reply result }
{
    let answer = ambiguity::written_length(t, n, table, bytes, starts, lengths);
    replies::length_told(answer)
}

#[unsafe(no_mangle)]
pub extern "C" fn ambiguity_report(text: &[u8], out: &mut [u8]) -> ReportReply
    ensures { RepliesReport text.now out.old result out.new }
{
    let answer = ambiguity::report(text, out);
    replies::report_told(answer)
}

#[unsafe(no_mangle)]
pub extern "C" fn ambiguity_read_back(
    text: &[u8],
    lines: &[u8],
    left: &mut [u32],
    right: &mut [u32],
) -> ReadBackReply
    ensures { RepliesBack text.now lines.now left.old right.old result left.new right.new }
{
    let answer = ambiguity::read_back(text, lines, left, right);
    replies::back_told(answer)
}

#[unsafe(no_mangle)]
pub extern "C" fn ambiguity_join_texts(robot: &[u8], addon: &[u8], table: &mut [u16]) -> ReadReply
    ensures { RepliesJoin robot.now addon.now table.old result table.new }
{
    let answer = ambiguity::join_texts(robot, addon, table);
    replies::read_told(answer)
}

#[unsafe(no_mangle)]
pub extern "C" fn ambiguity_joined_name(robot: &[u8], addon: &[u8], symbol: usize) -> PartReply
    ensures { Replies (ShowsPlace robot.now addon.now symbol) part_reply result }
{
    let place = ambiguity::joined_place(robot, addon, symbol);
    replies::part_told(place)
}

#[unsafe(no_mangle)]
pub extern "C" fn ambiguity_write_joined(robot: &[u8], addon: &[u8], out: &mut [u8]) -> WriteReply
    ensures { RepliesJoined robot.now addon.now out.old result out.new }
{
    let answer = ambiguity::write_joined(robot, addon, out);
    replies::write_told(answer)
}

#[unsafe(no_mangle)]
pub extern "C" fn ambiguity_find_trees<'a>(
    t: usize,
    n: usize,
    table: &'a [u16],
    row: &'a [u16],
    work: &'a mut [u32],
    list: &'a mut [u16],
) -> TreesReply
    ensures { RepliesTrees t n table.now row.now work.old list.old result work.new list.new }
{
    let answer = ambiguity::find_trees(t, n, table, row, work, list);
    replies::trees_told(answer)
}

#[unsafe(no_mangle)]
pub extern "C" fn ambiguity_trees_room(t: usize, n: usize, table: &[u16]) -> TreesRoomReply
    ensures { Replies (TreesRoomAnswer t n table.now) trees_room_reply result }
{
    let answer = ambiguity::trees_room(t, n, table);
    replies::trees_room_told(answer)
}

#[unsafe(no_mangle)]
pub extern "C" fn ambiguity_draft_room() -> usize
    ensures { result ≡ draft_room }
{
    ambiguity::draft_room()
}

#[unsafe(no_mangle)]
pub extern "C" fn ambiguity_new_draft(
    t: usize,
    n: usize,
    table: &[u16],
    draft: &mut [u16],
) -> DraftReply
    ensures { RepliesBegun t n table.now draft.old result draft.new }
{
    let answer = ambiguity::new_draft(t, n, table, draft);
    replies::draft_told(answer)
}

#[unsafe(no_mangle)]
pub extern "C" fn ambiguity_add_rule(draft: &mut [u16], rule: &[u16]) -> DraftReply
    ensures { RepliesEdited draft.old (add rule.now) result draft.new }
{
    let answer = ambiguity::add_rule(draft, rule);
    replies::draft_told(answer)
}

#[unsafe(no_mangle)]
pub extern "C" fn ambiguity_withdraw_rule(draft: &mut [u16], number: usize) -> DraftReply
    ensures { RepliesEdited draft.old (withdraw number) result draft.new }
{
    let answer = ambiguity::withdraw_rule(draft, number);
    replies::draft_told(answer)
}

#[unsafe(no_mangle)]
pub extern "C" fn ambiguity_set_mark(draft: &mut [u16], number: usize) -> DraftReply
    ensures { RepliesEdited draft.old (mark number) result draft.new }
{
    let answer = ambiguity::set_mark(draft, number);
    replies::draft_told(answer)
}

#[unsafe(no_mangle)]
pub extern "C" fn ambiguity_return_to_mark(draft: &mut [u16], number: usize) -> DraftReply
    ensures { RepliesEdited draft.old (return number) result draft.new }
{
    let answer = ambiguity::return_to_mark(draft, number);
    replies::draft_told(answer)
}

#[unsafe(no_mangle)]
pub extern "C" fn ambiguity_draft_counts(draft: &[u16]) -> DraftCountsReply
    ensures { Replies (CountsDraft draft.now) draft_counts_reply result }
{
    let answer = ambiguity::draft_counts(draft);
    replies::draft_counts_told(answer)
}

#[unsafe(no_mangle)]
pub extern "C" fn ambiguity_draft_table(draft: &[u16]) -> DraftTableReply
    ensures { Replies (PlacesTable draft.now) draft_table_reply result }
{
    let answer = ambiguity::table_place(draft);
    replies::draft_table_told(answer)
}

#[unsafe(no_mangle)]
pub extern "C" fn ambiguity_read_plan<'a>(
    row: &'a [u16],
    work: &'a mut [u32],
    list: &'a mut [u16],
) -> PlanReply
    ensures { RepliesPlan row.now work.old list.old result work.new list.new }
{
    let answer = channels::read_plan(row, work, list);
    replies::plan_told(answer)
}

#[unsafe(no_mangle)]
pub extern "C" fn ambiguity_plan_room() -> usize
    ensures { result ≡ plan_room }
{
    channels::plan_room()
}

#[unsafe(no_mangle)]
pub extern "C" fn ambiguity_plan_certificate_byte(place: usize) -> u8
    ensures { result ≡ get_or certificate place 0 }
{
    channels::certificate_byte(place)
}
