// The face for C: crate explanation's entry points, over tables handed in whole, under the symbols that include/erbighenti.h declares.
#![tactic(auto)]

ghost use Rattle.std.specs.Prelude.{◌≡◌, length};
ghost use Rattle.model.specs.Query.{measure_report, answer_report};
ghost use Rattle.model.specs.Tables.{judge_tables, measure_by, answer_by, area_of, verdict_by};
ghost use Rattle.model.specs.Text.{text_report, term_text, room_after};
ghost use Rattle.model.specs.Verdict.{report_of};

use model::NodeNo;

// The checker for C: the number is returned (0 for success), the count of terms or the place stands behind `value`.
#[unsafe(no_mangle)]
pub extern "C" fn erbighenti_check(
    nodes: &[u16],
    rules: &[u16],
    connections: &[u16],
    words: &[u16],
    value: &mut u64,
) -> u16
    ensures value { result ≡ (report_of (verdict_by (judge_tables nodes.now rules.now connections.now) words.now)).number }
    ensures value_after { value.new ≡ (report_of (verdict_by (judge_tables nodes.now rules.now connections.now) words.now)).value }
{
    match explanation::check(nodes, rules, connections, words) {
        Ok(terms) => {
            *value = terms as u64;
            0
        }
        Err(rejection) => {
            *value = rejection.place as u64;
            u16::from(rejection.refusal)
        }
    }
}

// The distance for C: the number is returned (0 for success), the distance stands behind `value` (0 where it is refused).
#[unsafe(no_mangle)]
pub extern "C" fn erbighenti_distance(
    nodes: &[u16],
    rules: &[u16],
    connections: &[u16],
    left: u16,
    right: u16,
    value: &mut u64,
) -> u16
    ensures value { result ≡ (measure_report (measure_by (judge_tables nodes.now rules.now connections.now) left right)).number }
    ensures value_after { value.new ≡ (measure_report (measure_by (judge_tables nodes.now rules.now connections.now) left right)).distance }
{
    match explanation::distance(nodes, rules, connections, NodeNo(left), NodeNo(right)) {
        Ok(d) => {
            *value = d as u64;
            0
        }
        Err(refusal) => {
            *value = 0;
            u16::from(refusal)
        }
    }
}

// The query for C: the number is returned (0 for success), the distance and the words written stand behind the two (0 where it is refused).
#[unsafe(no_mangle)]
pub extern "C" fn erbighenti_query(
    nodes: &[u16],
    rules: &[u16],
    connections: &[u16],
    left: u16,
    right: u16,
    area: &mut [u16],
    distance: &mut u64,
    written: &mut u64,
) -> u16
    ensures value { result ≡ (answer_report (answer_by (judge_tables nodes.now rules.now connections.now) (length area.old) left right)).number }
    ensures distance_after { distance.new ≡ (answer_report (answer_by (judge_tables nodes.now rules.now connections.now) (length area.old) left right)).distance }
    ensures written_after { written.new ≡ (answer_report (answer_by (judge_tables nodes.now rules.now connections.now) (length area.old) left right)).written }
    ensures area_after { area.new ≡ area_of (judge_tables nodes.now rules.now connections.now) (length area.old) left right }
{
    match explanation::query(nodes, rules, connections, NodeNo(left), NodeNo(right), area) {
        Ok(answer) => {
            *distance = answer.distance as u64;
            *written = answer.words as u64;
            0
        }
        Err(refusal) => {
            *distance = 0;
            *written = 0;
            u16::from(refusal)
        }
    }
}

// The text of one term for C: the number is returned (0 for success), the bytes written stand behind `written` (0 where it is refused).
#[unsafe(no_mangle)]
pub extern "C" fn erbighenti_term_text(words: &[u16], room: &mut [u8], written: &mut u64) -> u16
    ensures value { result ≡ (text_report (term_text words.now (length room.old))).number }
    ensures written_after { written.new ≡ (text_report (term_text words.now (length room.old))).written }
    ensures room_after { room.new ≡ room_after words.now (length room.old) }
{
    match text::term_text(words, room) {
        Ok(n) => {
            *written = n as u64;
            0
        }
        Err(refusal) => {
            *written = 0;
            u16::from(refusal)
        }
    }
}
