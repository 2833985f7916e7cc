// A line's turn: the call that it names is made with its inputs. Each says whether the call is as its line says; none where
// the line names no call.
use cache::Cache;
use lists::line::Call;
use lists::play::{Run, Says, Seen};
use lists::value::Rule;
use rules::Cursor;

// A run at its start: an empty cache.
pub fn start(page: usize, len: usize, size: usize) -> Run {
    let cache = Cache {
        keys: [0; 32],
        places: [0; 32],
    };
    let cursor = Cursor {
        first: 0,
        page: 0,
        place: 0,
    };
    Run {
        page,
        len,
        size,
        cache,
        cursor,
    }
}

// A value's rule, from the low bytes of its numbers.
fn rule(first: u32, step: u32) -> Rule {
    Rule {
        first: (first % 256) as u8,
        step: (step % 256) as u8,
    }
}

// What a line says of a call.
fn says(numbers: &[u32]) -> Option<Says> {
    let [no, erased, image, cache] = numbers else {
        return None;
    };
    Some(Says {
        no: *no,
        erased: *erased as usize,
        image: u64::from(*image),
        cache: u64::from(*cache),
    })
}

// The value that a line says an answer shows.
fn seen(key: u32, numbers: &[u32]) -> Option<Seen> {
    let [len, first, step] = numbers else {
        return None;
    };
    Some(Seen {
        key,
        len: *len as usize,
        rule: rule(*first, *step),
    })
}

// n: a run begins, on an image of FF.
fn begin(img: &mut [u8], run: &mut Run, numbers: &[u32]) -> Option<bool> {
    let [page, len, size, no] = numbers else {
        return None;
    };
    let next = start(*page as usize, *len as usize, *size as usize);
    img.get_mut(..next.len)?.fill(255);
    *run = next;
    Some(answer::number(map::try_new(next.page, next.len, next.size)) == *no)
}

// s: a store.
fn store(img: &mut [u8], space: &mut [u8], run: &mut Run, numbers: &[u32]) -> Option<bool> {
    let [key, len, first, step, said @ ..] = numbers else {
        return None;
    };
    let says = says(said)?;
    let value = space.get_mut(..*len as usize)?;
    rule(*first, *step).fill(value);
    Some(run.store(img, *key, value, says))
}

// f: a fetch, of none or of a value.
fn fetch(img: &mut [u8], run: &mut Run, numbers: &[u32]) -> Option<bool> {
    let (key, rest) = numbers.split_first()?;
    let (said, value) = rest.split_at_checked(4)?;
    let says = says(said)?;
    if value.is_empty() {
        return Some(run.fetch(img, *key, says, None));
    }
    let seen = seen(0, value)?;
    Some(run.fetch(img, *key, says, Some(seen)))
}

// r: a removal of one key.
fn remove(img: &mut [u8], run: &mut Run, numbers: &[u32]) -> Option<bool> {
    let (key, said) = numbers.split_first()?;
    let says = says(said)?;
    Some(run.remove(img, *key, says))
}

// i: a walk's step to an item.
fn item(img: &[u8], run: &mut Run, numbers: &[u32]) -> Option<bool> {
    let (key, value) = numbers.split_first()?;
    let seen = seen(*key, value)?;
    Some(run.step(img, Some(seen)))
}

// z: a walk's step at its end.
fn end(img: &[u8], run: &mut Run, numbers: &[u32]) -> Option<bool> {
    if !numbers.is_empty() {
        return None;
    }
    Some(run.step(img, None))
}

// A call on the run's image.
fn call(img: &mut [u8], space: &mut [u8], run: &mut Run, call: &Call) -> Option<bool> {
    let numbers = call.numbers.get(..call.count)?;
    match call.letter {
        b's' => store(img, space, run, numbers),
        b'f' => fetch(img, run, numbers),
        b'r' => remove(img, run, numbers),
        b'a' => Some(run.remove_all(img, says(numbers)?)),
        b'e' => Some(run.erase_all(img, says(numbers)?)),
        b'w' => Some(run.walk(img, says(numbers)?)),
        b'i' => item(img, run, numbers),
        b'z' => end(img, run, numbers),
        _ => None,
    }
}

// A whole line's turn.
pub fn take(img: &mut [u8], space: &mut [u8], run: &mut Run, line: &Call) -> Option<bool> {
    if line.due {
        return None;
    }
    if line.letter == b'n' {
        return begin(img, run, line.numbers.get(..line.count)?);
    }
    let len = run.len;
    call(img.get_mut(..len)?, space, run, line)
}
