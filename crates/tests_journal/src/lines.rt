// A journal in a memory of a few lines, written by its index.
use bench_load::Random;
use journal_lines::{Index, record_size};
use line_memory::{Line, Write, zero_memory};
use std::alloc::Global;

// A line of the memory is written.
fn put(memory: &mut Vec<Line>, write: Write) {
    let Write { line, data } = write;
    if (line as usize) < memory.len() {
        memory[line as usize] = data;
    }
}

// Appends a record, and says whether there was room for it.
fn append(memory: &mut Vec<Line>, index: &mut Index, bytes: &[u8]) -> bool {
    if index.reserve().is_err() || !index.has_room(bytes) {
        return false;
    }
    for number in 0..=record_size(bytes) {
        put(memory, index.append_write(bytes, number));
    }
    index.append(bytes);
    true
}

// Cuts the records below a number, where they may be cut.
fn truncate(memory: &mut Vec<Line>, index: &mut Index, upto: u64) {
    if index.gone() < upto && upto <= index.end() {
        put(memory, index.truncate_write(upto));
        index.truncate(upto);
    }
}

// Which records are there in a memory: the first one's number and the one behind the last.
fn found(alloc: Global, memory: &[Line]) -> Option<(u64, u64)> {
    match Index::open(alloc, memory) {
        Ok(index) => Some((index.gone(), index.end())),
        Err(_) => None,
    }
}

#[test]
fn a_ring_is_gone_round(rt: HostRuntime) {
    let alloc = rt.alloc();
    let mut memory = zero_memory(alloc, 6).expect(&rt, "memory");
    let mut index = Index::open(alloc, &memory).expect(&rt, "a journal");
    for round in 0..20 {
        assert!(&rt; append(&mut memory, &mut index, &[7; 100]));
        assert!(&rt; append(&mut memory, &mut index, &[]));
        assert!(&rt; !append(&mut memory, &mut index, &[1; 125]));
        assert!(&rt; found(alloc, &memory) == Some((2 * round, 2 * round + 2)));
        truncate(&mut memory, &mut index, 2 * round + 1);
        assert!(&rt; found(alloc, &memory) == Some((2 * round + 1, 2 * round + 2)));
        truncate(&mut memory, &mut index, 2 * round + 2);
    }
    assert!(&rt; found(alloc, &memory) == Some((40, 40)));
}

#[test]
fn a_record_is_there_with_its_head(rt: HostRuntime) {
    let alloc = rt.alloc();
    let mut memory = zero_memory(alloc, 4).expect(&rt, "memory");
    let index = Index::open(alloc, &memory).expect(&rt, "a journal");
    let bytes = [3; 186];
    assert!(&rt; index.has_room(&bytes));
    assert!(&rt; !index.has_room(&[3; 187]));
    if index.has_room(&bytes) {
        for number in 0..=record_size(&bytes) {
            assert!(&rt; found(alloc, &memory) == Some((0, 0)));
            put(&mut memory, index.append_write(&bytes, number));
        }
    }
    assert!(&rt; found(alloc, &memory) == Some((0, 1)));
}

#[test]
fn other_memories_are_no_journals(rt: HostRuntime) {
    let alloc = rt.alloc();
    let mut memory = [[0; 64]; 3];
    assert!(&rt; found(alloc, &memory[..1]) == Some((0, 0)));
    assert!(&rt; found(alloc, &memory[..0]).is_none());
    // a head that counts more lines than there are, and one with a byte behind its numbers
    memory[0][16] = 3;
    assert!(&rt; found(alloc, &memory).is_none());
    memory[0] = [0; 64];
    memory[0][63] = 1;
    assert!(&rt; found(alloc, &memory).is_none());
    // a line in use that ends no record, one that holds too much, and the two that are right
    memory[0] = [0; 64];
    memory[0][16] = 1;
    assert!(&rt; found(alloc, &memory).is_none());
    memory[1][1] = 1;
    memory[1][0] = 63;
    assert!(&rt; found(alloc, &memory).is_none());
    memory[1][0] = 62;
    assert!(&rt; found(alloc, &memory) == Some((0, 1)));
    memory[1][0] = 61;
    assert!(&rt; found(alloc, &memory) == Some((0, 1)));
    memory[1][63] = 1;
    assert!(&rt; found(alloc, &memory).is_none());
}

// Whether a line may come behind the lines of a record that it is to go on with, by the table of the layout alone.
fn is_line(line: &Line, begins: bool) -> bool {
    let count = line[0] as usize;
    let ends = line[1];
    let is_counted = match ends {
        0 => count == 62,
        1 => count <= 62 && (count > 0 || begins),
        _ => false,
    };
    is_counted && line.iter().skip(2 + count.min(62)).all(|byte| *byte == 0)
}

// Whether a memory is a journal, by the table of the layout alone, where the numbers of its head have one byte each.
fn is_journal(memory: &[Line]) -> bool {
    let Some(head) = memory.first() else {
        return false;
    };
    let lines = memory.len();
    let (first, used) = (head[8] as usize, head[16] as usize);
    let numbers = [0, 8, 16];
    let is_short = (0..64).all(|at| numbers.contains(&at) || head[at] == 0);
    if !is_short || first >= lines || used >= lines {
        return false;
    }
    let mut begins = true;
    for number in 0..used {
        let line = memory[1 + (first + number) % (lines - 1)];
        if !is_line(&line, begins) {
            return false;
        }
        begins = line[1] == 1;
    }
    begins
}

// A line of few kinds of bytes, which is often one of a record.
fn drawn_line(random: &mut Random) -> Line {
    let mut line = [0; 64];
    line[1] = (random.next() % 3) as u8 / 2 + (random.next() % 2) as u8;
    line[0] = [62, 62, 5, 0, 63, 61][(random.next() % 6) as usize];
    if random.next() % 3 == 0 {
        line[2 + (random.next() % 62) as usize] = 1;
    }
    line
}

#[test]
fn memories_of_any_bytes_are_journals_or_not(rt: HostRuntime) {
    let alloc = rt.alloc();
    let mut random = Random::with_seed(76);
    let mut journals: u64 = 0;
    for _draw in 0..20_000 {
        let mut memory = [[0; 64]; 4];
        for line in 1..4 {
            memory[line] = drawn_line(&mut random);
        }
        for at in [0, 8, 16] {
            memory[0][at] = (random.next() % 4) as u8;
        }
        if random.next() % 8 == 0 {
            memory[0][24 + (random.next() % 40) as usize] = 1;
        }
        let is_found = found(alloc, &memory).is_some();
        assert!(&rt; is_found == is_journal(&memory));
        journals = journals.saturating_add(is_found as u64);
    }
    assert!(&rt; journals > 1_000 && journals < 19_000);
}
