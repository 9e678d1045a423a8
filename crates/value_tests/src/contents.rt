//! Contents as JSON texts (RFC 8259): what is read and written, at the edges of form and limits.
use block_content::{ContentFault, links, read_content, write_content};
use serde_json::Value;
use site_types::{Content, NoMemory};
use std::alloc::{AllocError, Global};
use std::process::Abort;
use std::test::Fail;

/// A text, and what is written of the content that it is: `bad` if it is none.
struct TextRow {
    text: &'static str,
    written: &'static str,
}

/// Texts: each kind of block, members in another order or told twice, and what is no content.
const TEXTS: [TextRow; 10] = [
    TextRow {
        text: "{\"blocks\":[{\"heading\":\"A\"},{\"paragraph\":\"\"}],\"title\":\"\\u0000\"}",
        written: "{\"blocks\":[{\"heading\":\"A\"},{\"paragraph\":\"\"}],\"title\":\"\\u0000\"}",
    },
    TextRow {
        text: "{\"blocks\":[{\"list\":[\"B\",\"\"]},{\"page\":1000000}],\"title\":\"C\\\"\\n\"}",
        written: "{\"blocks\":[{\"list\":[\"B\",\"\"]},{\"page\":1000000}],\"title\":\"C\\\"\\n\"}",
    },
    TextRow {
        text: " { \"title\" : \"A\" , \"bl\\u006fcks\" : [ ] } ",
        written: "{\"blocks\":[],\"title\":\"A\"}",
    },
    TextRow {
        text: "{\"title\":1,\"blocks\":[{\"page\":0}],\"title\":\"A\",\"blocks\":[]}",
        written: "{\"blocks\":[],\"title\":\"A\"}",
    },
    TextRow {
        text: "{\"Blocks\":[],\"title\":\"A\"}",
        written: "bad",
    },
    TextRow {
        text: "{\"blocks\":[],\"title\":\"A\",\"url\":null}",
        written: "bad",
    },
    TextRow {
        text: "{\"blocks\":[{\"page\":1.0}],\"title\":\"A\"}",
        written: "bad",
    },
    TextRow {
        text: "{\"blocks\":[{\"page\":1e0}],\"title\":\"A\"}",
        written: "bad",
    },
    TextRow {
        text: "{\"blocks\":[{\"page\":-0}],\"title\":\"A\"}",
        written: "bad",
    },
    TextRow {
        text: "{\"blocks\":[{\"page\":18446744073709551617}],\"title\":\"A\"}",
        written: "bad",
    },
];

/// A text whose middle part may be repeated so many times in a content, and no more.
struct LimitRow {
    front: &'static str,
    middle: &'static str,
    end: &'static str,
    most: usize,
}

/// Limits: a title of 255 bytes, 1,000 blocks, 1,000 texts of a list, a form of 65,536 bytes.
const LIMITS: [LimitRow; 5] = [
    LimitRow {
        front: "{\"blocks\":[],\"title\":\"",
        middle: "a",
        end: "\"}",
        most: 255,
    },
    LimitRow {
        front: "{\"blocks\":[],\"title\":\"",
        middle: "\u{e9}",
        end: "\"}",
        most: 127,
    },
    LimitRow {
        front: "{\"blocks\":[{\"page\":1}",
        middle: ",{\"page\":1}",
        end: "],\"title\":\"A\"}",
        most: 999,
    },
    LimitRow {
        front: "{\"blocks\":[{\"list\":[\"\"",
        middle: ",\"\"",
        end: "]}],\"title\":\"A\"}",
        most: 999,
    },
    LimitRow {
        front: "{\"blocks\":[{\"paragraph\":\"",
        middle: "a",
        end: "\"}],\"title\":\"A\"}",
        most: 65_527,
    },
];

/// The content that a text is, if it is one.
fn content_in(alloc: Global, text: &str) -> Result<Option<Content>, Fail> {
    let value = Value::from_str(alloc, text)?;
    match read_content(alloc, &value) {
        Ok(content) => Ok(Some(content)),
        Err(ContentFault::Bad) => Ok(None),
        Err(ContentFault::Memory) => Err(Fail::from("no memory")),
    }
}

/// The text that is written of a content.
fn text_of(alloc: Global, content: &Content) -> Result<String, Fail> {
    let value = write_content(alloc, content)?;
    Ok(value.to_string(alloc)?)
}

/// What is written of the content that a text is, or `bad` if it is none.
fn written_again(alloc: Global, text: &str) -> Result<String, Fail> {
    match content_in(alloc, text)? {
        Some(content) => text_of(alloc, &content),
        None => Ok(String::from_str(alloc, "bad")?),
    }
}

/// The text of a row with its middle part so many times.
fn repeated(alloc: Global, row: &LimitRow, count: usize) -> Result<String, AllocError> {
    let mut text = String::from_str(alloc, row.front)?;
    for _ in 0..count {
        text.push_str(row.middle)?;
    }
    text.push_str(row.end)?;
    Ok(text)
}

/// Whether the text of a row with its middle part so many times is the form of a content.
fn fits(alloc: Global, row: &LimitRow, count: usize) -> Result<bool, Fail> {
    let text = repeated(alloc, row, count)?;
    let written = written_again(alloc, text.as_str())?;
    Ok(written.as_str() == text.as_str())
}

#[test]
fn texts_are_read_and_written(rt: HostRuntime) -> Result<(), Fail> {
    for row in &TEXTS {
        let written = written_again(rt.alloc(), row.text)?;
        assert!(rt; written.as_str() == row.written);
    }
    Ok(())
}

#[test]
fn limits_are_kept(rt: HostRuntime) -> Result<(), Fail> {
    for row in &LIMITS {
        assert!(rt; fits(rt.alloc(), row, row.most)?);
        assert!(rt; !fits(rt.alloc(), row, row.most + 1)?);
    }
    Ok(())
}

/// A content with a block of each kind, which links to page 7 twice.
const LINKED: &str = "{\"blocks\":[{\"page\":7},{\"heading\":\"A\"},{\"paragraph\":\"B\"},\
    {\"list\":[\"C\"]},{\"page\":2},{\"page\":7}],\"title\":\"D\"}";

/// Ends the process if the pages that the content links to are not 2 and 7.
fn expect_links(rt: &impl Abort, alloc: Global, content: &Content) -> Result<(), NoMemory> {
    let linked = links(alloc, content)?;
    assert!(rt; linked.as_slice() == [2, 7].as_slice());
    Ok(())
}

/// Ends the process if a copy of the content is another one.
fn expect_copy(rt: &impl Abort, alloc: Global, content: &Content) -> Result<(), NoMemory> {
    let copy = content.copy(alloc)?;
    assert!(rt; copy == *content);
    Ok(())
}

#[test]
fn contents_are_linked_and_copied(rt: HostRuntime) -> Result<(), Fail> {
    match content_in(rt.alloc(), LINKED)? {
        Some(content) => {
            expect_links(&rt, rt.alloc(), &content)?;
            Ok(expect_copy(&rt, rt.alloc(), &content)?)
        }
        None => Err(Fail::from("no content")),
    }
}
