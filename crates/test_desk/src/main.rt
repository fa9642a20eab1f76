// Compares tables of another implementation (data/, one row a line) with the calls of `gate_tariff`, `gate_qasm` and `pattern_sheet`, and prints how many rows differ.
// A row has three cells: what is asked, in two of them, and the answer.
#![tactic(auto)]

mod cells;
mod quotes;
mod runs;
mod sheets;
mod texts;

fn main(rt: HostRuntime) {
    test_rows::compare(
        &rt,
        b"cost",
        b"cost.txt",
        |row, _| quotes::right(row, false),
    );
    test_rows::compare(&rt, b"cost_runs", b"cost_runs.txt", |row, _| {
        runs::right(row, false)
    });
    test_rows::compare(&rt, b"tray", b"tray.txt", |row, _| quotes::right(row, true));
    test_rows::compare(&rt, b"tray_runs", b"tray_runs.txt", |row, _| {
        runs::right(row, true)
    });
    test_rows::compare(
        &rt,
        b"write",
        b"write.txt",
        |row, _| texts::right(row, false),
    );
    test_rows::compare(&rt, b"read", b"read.txt", |row, _| texts::right(row, true));
    test_rows::compare(&rt, b"sheet", b"sheet.txt", |row, _| { sheets::right(row) });
}
