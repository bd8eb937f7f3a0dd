// Which texts are read line by line. No clause says that one is, since any text may be left to its document.

use plan_lines::plain_rows;
use std::alloc::Global;
use std::test::Fail;

/// How many elements, links and sources the lines of a text give, if they are all plain.
fn counts(alloc: Global, text: &str) -> Option<(usize, usize, usize)> {
    match plain_rows(alloc, text) {
        Ok(rows) => Some((
            rows.elements.as_slice().len(),
            rows.links.as_slice().len(),
            rows.sources.as_slice().len(),
        )),
        Err(_) => None,
    }
}

#[test]
fn plain_texts_are_read_line_by_line(rt: HostRuntime) -> Result<(), Fail> {
    for (text, counted) in [
        ("", Some((0, 0, 0))),
        ("element = []\nlink = []\nsource = []\n", Some((0, 0, 0))),
        (
            "version = 2 # 2\r\n\r\n[[element]]\r\nname='A'",
            Some((1, 0, 0)),
        ),
        (
            "[[element]]\nname = \"A\"\nwtr = 5\n\n[[source]]\nat = \"A\"\nlevel = \"QL-PRC\"\nname = \"S\"\n",
            Some((1, 0, 1)),
        ),
        (
            "element = [\n  { name = 'A' }, # one\n  { name = 'B', },\n]\nlink = [{ name = 'L', a = 'A', b = 'B' }]\n",
            Some((2, 1, 0)),
        ),
        ("\u{FEFF}[[element]]\nname = 'A'\n", None),
        ("[[element]]\n'name' = 'A'\n", None),
        ("[[ element ]]\nname = 'A'\n", None),
        ("[[element]]\nname = 'A'\nname = 'A'\n", None),
        ("[[element]]\nwtr = 5\n", None),
    ] {
        assert!(rt; counts(rt.alloc(), text) == counted);
    }
    Ok(())
}
