use anyhow::{Context, Result, bail};
use jv_bytes::{text_of, units_of};
use jv_desc::{field_desc, method_desc, show_field, show_method};
use std::alloc::Global;

static NAMES: [&[u8]; 6] = [
    b"java/lang/Object",
    b"<init>",
    b"toString",
    b"app/\xe3\x83\x86\xe3\x82\xb9\xe3\x83\x88/Gr\xc3\xb6\xc3\x9fe",
    b"\xc0\x80\xed\xa0\xbd\xed\xb8\x80",
    b"org/example/project/internal/AVeryLongNameOfAClassThatGoesOn",
];

static FIELDS: [&[u8]; 4] = [
    b"I",
    b"[[J",
    b"Ljava/lang/String;",
    b"[[[Lorg/example/project/internal/Node;",
];

static METHODS: [&[u8]; 4] = [
    b"()V",
    b"(IJ[Ljava/lang/Object;)V",
    b"([Ljava/lang/String;)V",
    b"(Ljava/lang/Object;ILjava/lang/Object;II)Ljava/util/Map;",
];

/// Reads each name, and writes it again where asked.
fn names(alloc: Global, writes: bool) -> Result<u64> {
    let mut bytes = 0u64;
    for name in NAMES.iter() {
        let units = units_of(alloc, name)
            .ok()
            .context("a name that is no text")?;
        bytes = bytes.saturating_add(name.len() as u64);
        if writes {
            let text = text_of(alloc, &units)?;
            bytes = bytes.saturating_add(text.len() as u64);
        }
    }
    Ok(bytes)
}

/// Reads each descriptor, and shows it again where asked.
fn descriptors(alloc: Global, shows: bool) -> Result<u64> {
    let mut bytes = 0u64;
    for text in FIELDS.iter() {
        let desc = field_desc(alloc, text).ok().context("no field descriptor")?;
        bytes = bytes.saturating_add(text.len() as u64);
        if shows {
            let shown = show_field(alloc, &desc)?;
            bytes = bytes.saturating_add(shown.len() as u64);
        }
    }
    for text in METHODS.iter() {
        let desc = method_desc(alloc, text)
            .ok()
            .context("no method descriptor")?;
        bytes = bytes.saturating_add(text.len() as u64);
        if shows {
            let shown = show_method(alloc, &desc)?;
            bytes = bytes.saturating_add(shown.len() as u64);
        }
    }
    Ok(bytes)
}

/// One round of a piece of work on texts, and how many bytes it went over.
fn round(alloc: Global, work: &str) -> Result<u64> {
    match work {
        "read-names" => names(alloc, false),
        "names" => names(alloc, true),
        "read-descriptors" => descriptors(alloc, false),
        "descriptors" => descriptors(alloc, true),
        _ => bail!("no such work on texts"),
    }
}

/// Does a piece of work on texts so many times, and prints how many bytes it went over.
pub fn measure_texts(rt: &(impl Print + AllocGlobal), work: &str, rounds: u32) -> Result<()> {
    let mut bytes = 0u64;
    for _ in 0..rounds {
        bytes = bytes.saturating_add(round(rt.alloc(), work)?);
    }
    println!(rt; "{bytes}")?;
    Ok(())
}
