//! What stands in each picture alike: its colours and its legend.
ghost use Rattle.std.specs.Prelude.{◌≡◌, ◌++◌, ◌≤◌, OnOk};
ghost use Rattle.picture_text.specs.Legend.{light_style, dark_style, style, arrows, key, step_key, end_key, steps_legend, jobs_legend, arrows_legend, ends_legend, ages_legend, legend};

use rt_base::OutOfMemory;
use schedule_marks::{add, add_circle, add_line, add_rect, add_word, add_words};

// The classes of texts, lines and steps, and those of spans and ends.
fn add_light(into: &mut Vec<u8>) -> Result<(), OutOfMemory>
    ensures { OnOk result (into.new.items ≡ into.old.items ++ light_style) }
{
    add(
        into,
        b"<style>text{font:11px monospace;fill:#111}.n{font-size:12px;font-weight:bold}.m{text-anchor:middle}.e{text-anchor:end}.s{fill:#333}",
    )?;
    add(
        into,
        b".f{fill:#333;paint-order:stroke;stroke:#fff;stroke-width:3px}.j{fill:#111;font-weight:bold;text-anchor:middle}",
    )?;
    add(
        into,
        b".z{fill:#fff;font-weight:bold;text-anchor:middle}.l{fill:#fff;font-size:9px;font-weight:bold;text-anchor:middle}",
    )?;
    add(
        into,
        b".bg{fill:#fff}.g{stroke:#e4e4e4}.b{stroke:#888}.h{stroke:#333}.p{fill:#e6e6e6}",
    )?;
    add(
        into,
        b".r{fill:#56b4e9}.w{fill:#b34a00}.c{fill:#f0e442}.k{fill:#00785a}.q{fill:#555}",
    )?;
    add(
        into,
        b".lr{fill:#cfe8f8;stroke:#56b4e9}.lw{fill:#f7d3b8;stroke:#b34a00}.a{fill:#e3d7ee}.t{stroke:#5b2a86;stroke-width:2}",
    )?;
    add(
        into,
        b".o{fill:url(#wait);stroke:#b00020}.i{fill:#f3c9df;stroke:#a0457a}.v,.vs,.vb{stroke:#b00020;stroke-width:2}.v{marker-end:url(#to)}",
    )?;
    add(
        into,
        b".vb{stroke-width:1;stroke-dasharray:3}.u{stroke:#111;stroke-width:2;marker-end:url(#at)}.d{stroke:#0072b2;stroke-width:2;marker-end:url(#due)}",
    )?;
    add(
        into,
        b".ut{fill:#111}.dt{fill:#0072b2}.vt{fill:#b00020}.ht{stroke:#b00020}circle{stroke:#fff}",
    )?;
    add(
        into,
        b".rb{stroke:#7a3db8;stroke-width:2}.ab{stroke:#7a3db8;stroke-dasharray:4}.ag{stroke:#0072b2;stroke-width:2}.av{stroke:#b00020;stroke-dasharray:4}.ar{fill:#00785a}",
    )?;
    add(
        into,
        b".xk{fill:#00785a}.xo{fill:#8a5a00}.xl{fill:#b00020}.xs{fill:#8a2f6b}.xa{fill:#005a94}.xq{fill:#555}",
    )
}

// Their colours on a dark screen.
fn add_dark(into: &mut Vec<u8>) -> Result<(), OutOfMemory>
    ensures { OnOk result (into.new.items ≡ into.old.items ++ dark_style) }
{
    add(
        into,
        b"@media(prefers-color-scheme:dark){text,.s{fill:#ddd}.f{fill:#ddd;stroke:#16181d}.bg{fill:#16181d}.g{stroke:#33363d}.b{stroke:#777}.h{stroke:#bbb}",
    )?;
    add(
        into,
        b".p{fill:#3a3d45}.lr{fill:#1d3b4e}.lw{fill:#4a2a12}.a{fill:#3a2e4d}.t{stroke:#b79be0}.i{fill:#4a2038}",
    )?;
    add(
        into,
        b".o,.v,.vs,.vb,.ht{stroke:#ff6b81}.vt{fill:#ff6b81}.u{stroke:#eee}.ut{fill:#eee}.d{stroke:#58b0f0}.dt{fill:#58b0f0}",
    )?;
    add(
        into,
        b".rb,.ab{stroke:#b98ae6}.ag{stroke:#58b0f0}.av{stroke:#ff6b81}.ar{fill:#4fc3a1}",
    )?;
    add(into, b"}</style>\n")?;
    Ok(())
}

/// The classes of all elements.
pub fn add_style(into: &mut Vec<u8>) -> Result<(), OutOfMemory>
    ensures { OnOk result (into.new.items ≡ into.old.items ++ style) }
{
    add_light(into)?;
    add_dark(into)
}

/// The heads of arrows, and the hatching of waits.
pub fn add_arrows(into: &mut Vec<u8>) -> Result<(), OutOfMemory>
    ensures { OnOk result (into.new.items ≡ into.old.items ++ arrows) }
{
    add(
        into,
        b"<defs><marker id='at' markerUnits='userSpaceOnUse' markerWidth='8' markerHeight='8' refX='6' refY='4' orient='auto'><path class='ut' d='M0,0L7,4L0,8z'/></marker>",
    )?;
    add(
        into,
        b"<marker id='due' markerUnits='userSpaceOnUse' markerWidth='8' markerHeight='8' refX='6' refY='4' orient='auto'><path class='dt' d='M0,0L7,4L0,8z'/></marker>",
    )?;
    add(
        into,
        b"<marker id='to' markerUnits='userSpaceOnUse' markerWidth='8' markerHeight='8' refX='6' refY='4' orient='auto'><path class='vt' d='M0,0L7,4L0,8z'/></marker>",
    )?;
    add(
        into,
        b"<pattern id='wait' width='6' height='6' patternUnits='userSpaceOnUse'><path class='ht' d='M0,6L6,0'/></pattern></defs>\n",
    )?;
    Ok(())
}

// A coloured field and what it means.
fn add_key(into: &mut Vec<u8>, class: &[u8], x: u64, y: u64, word: &[u8]) -> Result<(), OutOfMemory>
    requires { (x ≤ 10000) × (y ≤ 10000) }
    ensures { OnOk result (into.new.items ≡ into.old.items ++ key class.now x y word.now) }
{
    add_rect(into, class, x, y, 20, 14)?;
    add_words(into, b"s", x + 26, y + 11, word, b"")
}

// The field and the letter of a step, and what they mean.
fn add_step_key(
    into: &mut Vec<u8>,
    class: &[u8],
    letter_class: &[u8],
    letter: &[u8],
    x: u64,
    word: &[u8],
) -> Result<(), OutOfMemory>
    requires { x ≤ 10000 }
    ensures { OnOk result (into.new.items ≡ into.old.items ++ step_key class.now letter_class.now letter.now x word.now) }
{
    add_key(into, class, x, 8, word)?;
    add_word(into, letter_class, x + 10, 19, letter)
}

// A disc with its letter, and the end that it means.
fn add_end_key(
    into: &mut Vec<u8>,
    class: &[u8],
    x: u64,
    letter: &[u8],
    word: &[u8],
) -> Result<(), OutOfMemory>
    requires { x ≤ 10000 }
    ensures { OnOk result (into.new.items ≡ into.old.items ++ end_key class.now x letter.now word.now) }
{
    add_circle(into, class, x + 10, 55)?;
    add_word(into, b"l", x + 10, 58, letter)?;
    add_words(into, b"s", x + 26, 59, word, b"")?;
    Ok(())
}

fn add_steps_legend(into: &mut Vec<u8>) -> Result<(), OutOfMemory>
    ensures { OnOk result (into.new.items ≡ into.old.items ++ steps_legend) }
{
    add_step_key(into, b"r", b"j", b"R", 10, b"read")?;
    add_step_key(into, b"w", b"z", b"W", 90, b"write")?;
    add_step_key(into, b"c", b"j", b"", 180, b"compute")?;
    add_step_key(into, b"k", b"z", b"C", 280, b"commit")?;
    add_step_key(into, b"q", b"z", b"Q", 370, b"quit")?;
    Ok(())
}

fn add_jobs_legend(into: &mut Vec<u8>) -> Result<(), OutOfMemory>
    ensures { OnOk result (into.new.items ≡ into.old.items ++ jobs_legend) }
{
    add_key(into, b"p", 450, 8, b"pending")?;
    add_key(into, b"o", 550, 8, b"waits")?;
    add_key(into, b"i", 640, 8, b"runs as the one that waits")?;
    add_key(into, b"lr", 10, 28, b"read lock")?;
    add_key(into, b"lw", 120, 28, b"write lock")?;
    add_key(into, b"a", 240, 28, b"ceiling")?;
    Ok(())
}

fn add_arrows_legend(into: &mut Vec<u8>) -> Result<(), OutOfMemory>
    ensures { OnOk result (into.new.items ≡ into.old.items ++ arrows_legend) }
{
    add_line(into, b"u", 336, 43, 336, 27)?;
    add_words(into, b"s", 346, 39, b"release", b"")?;
    add_line(into, b"d", 426, 27, 426, 43)?;
    add_words(into, b"s", 436, 39, b"deadline", b"")?;
    add_line(into, b"v", 520, 35, 540, 35)?;
    add_words(
        into,
        b"s",
        552,
        39,
        b"refused: waits on the job pointed at",
        b"",
    )?;
    Ok(())
}

fn add_ends_legend(into: &mut Vec<u8>) -> Result<(), OutOfMemory>
    ensures { OnOk result (into.new.items ≡ into.old.items ++ ends_legend) }
{
    add_end_key(into, b"xk", 10, b"", b"committed")?;
    add_end_key(into, b"xo", 120, b"O", b"overrun")?;
    add_end_key(into, b"xl", 220, b"L", b"late")?;
    add_end_key(into, b"xs", 300, b"S", b"stale")?;
    add_end_key(into, b"xa", 390, b"A", b"apart")?;
    add_end_key(into, b"xq", 480, b"Q", b"quit")?;
    Ok(())
}

fn add_ages_legend(into: &mut Vec<u8>) -> Result<(), OutOfMemory>
    ensures { OnOk result (into.new.items ≡ into.old.items ++ ages_legend) }
{
    add_line(into, b"rb", 20, 68, 20, 82)?;
    add_line(into, b"rb", 15, 81, 20, 81)?;
    add_words(into, b"s", 32, 79, b"response bound", b"")?;
    add_line(into, b"ag", 150, 82, 170, 70)?;
    add_words(into, b"s", 176, 79, b"age of a value", b"")?;
    add_line(into, b"av", 290, 75, 310, 75)?;
    add_words(into, b"s", 316, 79, b"its validity", b"")?;
    add_line(into, b"ab", 420, 75, 440, 75)?;
    add_words(into, b"s", 446, 79, b"its age bound", b"")?;
    add_rect(into, b"ar", 558, 73, 5, 5)?;
    add_words(into, b"s", 570, 79, b"read by a job that committed", b"")?;
    Ok(())
}

/// The legend.
pub fn add_legend(into: &mut Vec<u8>) -> Result<(), OutOfMemory>
    ensures { OnOk result (into.new.items ≡ into.old.items ++ legend) }
{
    add_steps_legend(into)?;
    add_jobs_legend(into)?;
    add_arrows_legend(into)?;
    add_ends_legend(into)?;
    add_ages_legend(into)?;
    Ok(())
}
