// A net is handed to a step, to writing and to the page of its first table, and a line printed: the answers, and whether the net and the buffers stayed as they were.
use files::NotWritten;
use nets::{Net, Pick, Stepped};
use page::{NotPaged, page};
use print_lines::buffer::Buffered;
use print_lines::lines::put_answer;
use print_lines::numbers::put_decimal;
use std::io;
use std::io::Write;
use steps::step;
use test_nets::exchanged::exchanged;
use write::write;

fn put_same(out: &mut impl Write, same: bool) -> io::Result<()> {
    write!(out, "{}", if same { " same" } else { " changed" })
}

// The step alone, without what its contract says.
fn stepping(net: Net, pick: Pick) -> Stepped {
    step(net, pick)
}

// What a step answers, and whether it left the net as it was.
fn put_step(out: &mut impl Write, net: Net, pick: Pick) -> io::Result<()> {
    let stepped = stepping(net, pick);
    put_answer(out, stepped.answer)?;
    put_same(out, net == stepped.net)
}

// Whether every byte is still 7.
fn put_untouched(out: &mut impl Write, buffer: &[u8]) -> io::Result<()> {
    put_same(out, buffer.iter().all(|b| *b == 7))
}

// The length of the file, or the number of the refusal, and whether the buffer stayed as it was.
fn put_written(out: &mut impl Write, net: Net) -> io::Result<()> {
    let mut buffer = [7u8; 1040];
    match write(net, &mut buffer) {
        Ok(n) => put_decimal(out, n as u64)?,
        Err(NotWritten::Unsound) => write!(out, "no 10")?,
        Err(NotWritten::Short) => write!(out, "no 21")?,
    }
    put_untouched(out, &buffer)
}

// The same of the page of the net's first table, whatever stands there.
fn put_page(out: &mut impl Write, net: Net) -> io::Result<()> {
    let mut buffer = [7u8; 901];
    let table = net.tables[0];
    match page(net, table.site, table.name, &mut buffer) {
        Ok(n) => put_decimal(out, n as u64)?,
        Err(NotPaged::Unsound) => write!(out, "no 10")?,
        Err(NotPaged::NoTable) => write!(out, "no 14")?,
        Err(NotPaged::Short(_)) => write!(out, "no 22")?,
    }
    put_untouched(out, &buffer)
}

// The net that 24 bytes say, with a pick of the first two.
pub fn try_net(rt: &impl Print, name: &[u8], e: [u8; 24]) -> io::Result<()> {
    let net = exchanged(e);
    let mut out = Buffered::new(rt);
    out.write_all(name)?;
    write!(out, ": ")?;
    put_step(
        &mut out,
        net,
        Pick {
            thread: e[0],
            row: e[1],
        },
    )?;
    write!(out, ", written ")?;
    put_written(&mut out, net)?;
    write!(out, ", page ")?;
    put_page(&mut out, net)?;
    writeln!(out)?;
    out.flush()
}
