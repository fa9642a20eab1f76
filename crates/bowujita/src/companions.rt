// Rig time, OpenQASM and pattern sheets: calls without a session.
ghost use Rattle.std.specs.Prelude.{◌≡◌};
ghost use Rattle.gate_tariff.specs.Tariff.{cost_of};
ghost use Rattle.gate_tariff.specs.Tray.{tray_of};
ghost use Rattle.pattern_sheet.specs.Sheet.{reading_of};
ghost use Rattle.bowujita.specs.Companions.{tariff_of, ticks_of, Writes, Reads, seen_of, Puts};

use library_calls::companions;
use library_calls::companions::{PlainSheet, Prices, Seen, Ticks, Wrote};

// What a word costs by a tariff, and whether it fits a memory.
pub fn bowujita_cost(tariff: Prices, word: &[u8], memory: u32) -> Ticks
    ensures { result ≡ ticks_of (cost_of (tariff_of tariff) word.now memory) }
{
    companions::ticks_of(gate_tariff::cost(companions::tariff_of(tariff), word, memory))
}

// What the words of a tray cost together, each closed by a line feed.
pub fn bowujita_tray_cost(tariff: Prices, words: &[u8], memory: u32) -> Ticks
    ensures { result ≡ ticks_of (tray_of (tariff_of tariff) words.now memory) }
{
    companions::ticks_of(gate_tariff::tray_cost(companions::tariff_of(tariff), words, memory))
}

// The lines of OpenQASM of a word.
pub fn bowujita_qasm_write(word: &[u8], text: &mut [u8]) -> Wrote
    ensures { Writes word.now text.old text.new result }
{
    companions::wrote_of(gate_qasm::write(word, text))
}

// The word of lines of OpenQASM.
pub fn bowujita_qasm_read(text: &[u8], word: &mut [u8]) -> Wrote
    ensures { Reads text.now word.old word.new result }
{
    companions::wrote_of(gate_qasm::read(text, word))
}

// One pattern sheet from the front of the bytes, as reader 1, the desk, or 2, the line crew, sees it.
pub fn bowujita_sheet_read(reader: u8, bytes: &[u8]) -> Seen
    ensures { result ≡ seen_of (reading_of reader bytes.now) }
{
    companions::seen_of(pattern_sheet::read(reader, bytes))
}

// The bytes of a pattern sheet at the front of a slice; one that the desk would be refused is not written.
pub fn bowujita_sheet_write(sheet: PlainSheet, bytes: &mut [u8]) -> Wrote
    ensures { Puts sheet bytes.old bytes.new result }
{
    companions::put_of(pattern_sheet::write(companions::sheet_of(sheet), bytes))
}
