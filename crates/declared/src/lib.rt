// All declarations of a text: `STIL 1.0;`, Signals, SignalGroups and Timing, read into arrays that the caller lends.
#![tactic(auto)]

ghost use Rattle.std.specs.Prelude.{◌≡◌};
ghost use Rattle.tokens.specs.Tokens.{toks};
ghost use Rattle.words.specs.Cursor.{Goes};
ghost use Rattle.declared.specs.Declarations.{version as version_due, declarations as declarations_due, Blank, Declares};
ghost use Rattle.declared.specs.Numbers.{numbers_of, told_of, five_of, written};

use tokens::Refusal;
use words::Cursor;

// How many signals, names and tables there are, where the watched waveform is, and the cursor behind them.
#[derive(Clone, Copy)]
pub struct Read {
    pub cursor: Cursor,
    pub signals: usize,
    pub names: usize,
    pub tables: usize,
    pub sight: Option<usize>,
}

// The cursor behind `STIL 1.0;`, and where its `;` stands.
#[derive(Clone, Copy)]
pub struct Versioned {
    pub cursor: Cursor,
    pub last: usize,
}

fn version(text: &[u8], c: Cursor) -> Versioned
    ensures { Goes text.now c version_due result.cursor result.last }
{
    let a = words::due(text, c, b"STIL");
    let b = words::due(text, a, b"1.0");
    let cursor = words::due(text, b, b";");
    Versioned { cursor, last: b.at }
}

// The declarations from a cursor on.
pub fn declarations(
    text: &[u8],
    c: Cursor,
    places: &mut [usize],
    lists: &mut [u16],
    tplaces: &mut [usize],
    waves: &mut [u8],
    watch: timing::Watch,
) -> Read
    requires { Blank places.old lists.old tplaces.old waves.old }
    ensures { Declares text.now c result.cursor places.new lists.new tplaces.new waves.new result.signals result.names result.tables watch result.sight }
{
    let v = version(text, c);
    let behind = v.cursor;
    let f = signals::front(text, behind, places, lists);
    let named = f.cursor;
    let t = timing::timing(text, named, places, lists, f.names, tplaces, waves, watch);
    let cursor = t.cursor;
    Read {
        cursor,
        signals: f.signals,
        names: f.names,
        tables: t.count,
        sight: t.sight,
    }
}

// What is told of a text's declarations: where the token behind them stands, and how many there are.
#[derive(Clone, Copy)]
pub struct Told {
    pub place: usize,
    pub signals: usize,
    pub names: usize,
    pub tables: usize,
}

// Of a text without a fault in its bytes.
fn read_all(text: &[u8]) -> Result<Told, Refusal>
    ensures { result ≡ numbers_of (declarations_due (toks text.now 0)) }
{
    let mut places = [0usize; signals::PLACES];
    let mut lists = [0u16; signals::LISTS];
    let mut tplaces = [0usize; timing::PLACES];
    let mut waves = [0u8; timing::WAVES];
    let c = words::cursor_at(text, 0);
    let nothing = timing::Watch {
        table: timing::TABLES,
        signal: 0,
        char: 0,
    };
    let d = declarations(
        text,
        c,
        &mut places,
        &mut lists,
        &mut tplaces,
        &mut waves,
        nothing,
    );
    let behind = d.cursor;
    if behind.no != 0 {
        return Err(Refusal {
            no: behind.no,
            place: behind.at,
        });
    }
    Ok(Told {
        place: behind.at,
        signals: d.signals,
        names: d.names,
        tables: d.tables,
    })
}

// Of any text.
pub fn tell(text: &[u8]) -> Result<Told, Refusal>
    ensures { result ≡ told_of text.now }
{
    tokens::fault_in(text)?;
    read_all(text)
}

// As five numbers: that of the refusal, 0 for none; its place, or that of the token behind the declarations; and how many there are, where there is no refusal.
fn five(told: Result<Told, Refusal>) -> [usize; 5]
    ensures { result ≡ five_of told }
{
    match told {
        Ok(t) => [0, t.place, t.signals, t.names, t.tables],
        Err(r) => [r.no as usize, r.place, 0, 0, 0],
    }
}

// The same for a caller in C or Rust: five numbers to the front of a buffer, if it has room for them.
#[unsafe(no_mangle)]
pub extern "C" fn lutemeteor_declared(text: &[u8], numbers: &mut [usize])
    ensures { numbers.new ≡ written (told_of text.now) numbers.old }
{
    if numbers.len() < 5 {
        return;
    }
    numbers[..5].copy_from_slice(&five(tell(text)));
}
