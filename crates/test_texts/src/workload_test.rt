//! Tests of the drawn workload.
use std::alloc::Global;
use std::str;
use std::test::Fail;
use workload::big_case;

/// Where the text begins, for every seed.
const BEGINNING: &str =
    "{\"bound\":65536,\"format\":\"flat\",\"image\":\"b702004003a3020093824200b7030200";

/// What the text of a seed holds.
#[derive(Clone, Copy)]
struct Drawn {
    seed: u32,
    length: usize,
    /// It has the beginning of the drawn input, or the step of a drawn tamper.
    part: &'static str,
    ending: &'static str,
}

const TEXTS: [Drawn; 5] = [
    Drawn {
        seed: 0,
        length: 8_901,
        part: "\"input\":\"3c47d1aa",
        ending: "{\"tamper\":{\"kind\":\"reg\",\"reg\":10,\"step\":30445,\"value\":2147514405}}]}",
    },
    Drawn {
        seed: 1,
        length: 8_901,
        part: "50562685\",\"patience\":0,\"provers\":[{\"tamper\":{\"kind\":\"reg\",\"reg\":10,\"step\":1228,\"value\":2147508253}},{},{\"tamper\":",
        ending: ",{\"tamper\":{\"kind\":\"reg\",\"reg\":10,\"step\":31770,\"value\":2147490947}}]}",
    },
    Drawn {
        seed: 1,
        length: 8_901,
        part: "\"input\":\"3c5e81b4",
        ending: "\"value\":2147490947}}]}",
    },
    Drawn {
        seed: 7,
        length: 8_899,
        part: "\",\"input\":\"3de99ced",
        ending: ",{\"tamper\":{\"kind\":\"reg\",\"reg\":10,\"step\":25606,\"value\":2147515212}},{}]}",
    },
    Drawn {
        seed: 4_294_967_295,
        length: 8_898,
        part: "705e608b\",\"patience\":0,\"provers\":[{\"tamper\":{\"kind\":\"reg\",\"reg\":10,\"step\":722,\"value\":2147540640}},",
        ending: ",{\"tamper\":{\"kind\":\"reg\",\"reg\":10,\"step\":26774,\"value\":2147536232}},{}]}",
    },
];

/// These rows as a value, of which no caller sees the rows: they would stand in each of its goals.
fn texts() -> &'static [Drawn] {
    &TEXTS
}

/// Whether a text has the length of a row, the beginning of all, the row's part and its ending.
fn holds(text: &[u8], row: &Drawn) -> Result<[bool; 4], Fail> {
    let text = str::from_utf8(text)?;
    Ok([
        text.len() == row.length,
        text.starts_with(BEGINNING),
        text.contains(row.part),
        text.ends_with(row.ending),
    ])
}

/// The same of the text of the row's seed.
fn draws(alloc: Global, row: &Drawn) -> Result<[bool; 4], Fail> {
    let text = big_case(alloc, row.seed)?;
    holds(text.as_slice(), row)
}

/// The seed of the first row whose text is another one, and what it holds.
fn first_other(alloc: Global, rows: &[Drawn]) -> Result<Option<(u32, [bool; 4])>, Fail> {
    for row in rows {
        let held = draws(alloc, row)?;
        if held != [true; 4] {
            return Ok(Some((row.seed, held)));
        }
    }
    Ok(None)
}

#[test]
fn texts_hold_what_their_seeds_draw(rt: HostRuntime) -> Result<(), Fail> {
    assert_eq!(rt; first_other(rt.alloc(), texts())?, None);
    Ok(())
}
