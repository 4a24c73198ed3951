// The one call that makes a film, for every reader.
ghost use Rattle.std.specs.Prelude.{◌≡◌, ◌+◌, ◌<◌, min, length, take, IfOk};
ghost use Rattle.totals.specs.Totals.{totals_of};
ghost use Rattle.films.specs.Film.{Taken, at_film_end, film_result, film_memory};
ghost use Rattle.films.specs.Steps.{film_next, kept_totals};
ghost use Rattle.readers.specs.Reading.{plain, answer};

use crate::fault::FilmFault;
use readers::reader::Reader;
use totals::{MAX_FRAMES, Weight};

// The size of the next frame, if one comes. A film that has the most already refuses it, and a record's fault is told
// with the frames read before it.
fn next_size<R: Reader>(reader: &mut R, frames: usize) -> Result<Option<u64>, FilmFault>
    ensures tells { result ≡ film_next (answer (R.reading reader.old).sizes (R.reading reader.old).ending) frames }
    ensures taken { Taken 1 (R.reading reader.old) (R.reading reader.new) }
{
    let Some(record) = reader.next().map_err(|fault| (fault, frames))? else {
        return Ok(None);
    };
    if frames >= MAX_FRAMES {
        return Err(FilmFault::TooManyFrames { frames });
    }
    Ok(Some(record.weight()))
}

// The count of a film that has frames, or the refusal of one that has none.
fn film_of(frames: usize) -> Result<usize, FilmFault>
    ensures { result ≡ at_film_end plain frames }
{
    if frames == 0 {
        return Err(FilmFault::NoFrame);
    }
    Ok(frames)
}

// Puts in a total for each frame as it is read, until no more come or there is no room for one more.
fn read_frames<R: Reader>(reader: &mut R, totals: &mut [u64]) -> Result<usize, FilmFault>
    requires { 0 < length totals.old }
    ensures result { result ≡ film_result (R.reading reader.old) (length totals.old) }
    ensures totals { IfOk result (λ frames. take (frames + 1) totals.new ≡ totals_of (R.reading reader.old).sizes) }
    ensures taken { Taken (min 65536 (length totals.old)) (R.reading reader.old) (R.reading reader.new) }
{
    let mut sum = 0;
    for (frames, total) in totals.iter_mut().enumerate() {
        *total = sum;
        let Some(size) = next_size(reader, frames)? else {
            return film_of(frames);
        };
        sum += size;
    }
    Err(FilmFault::NoEntryLeft {
        frames: totals.len() - 1,
    })
}

// Keeps the totals of a film, where there is one, and sets all entries after them to 0.
fn clear_rest(totals: &mut [u64], film: Result<usize, FilmFault>)
    requires { IfOk film (λ frames. frames < length totals.old) }
    ensures { totals.new ≡ kept_totals film totals.old }
{
    match film {
        Ok(frames) => totals[frames + 1..].fill(0),
        Err(_) => totals.fill(0),
    }
}

// Reads to the end, writes the totals L(0) to L(N) and then zeros, and answers N. Where it refuses, all of the
// memory is 0.
#[tactic(auto, using(crate::proofs::Making::film_within, crate::proofs::Making::kept_is_film))]
pub fn make_film<R: Reader>(reader: &mut R, totals: &mut [u64]) -> Result<usize, FilmFault>
    ensures result { result ≡ film_result (R.reading reader.old) (length totals.old) }
    ensures memory { totals.new ≡ film_memory result (R.reading reader.old).sizes (length totals.old) }
    ensures taken { Taken (min 65536 (length totals.old)) (R.reading reader.old) (R.reading reader.new) }
    ensures unread { length totals.old ≡ 0 → reader.new ≡ reader.old }
{
    if totals.is_empty() {
        return Err(FilmFault::NoMemory);
    }
    let film = read_frames(reader, totals);
    clear_rest(totals, film);
    film
}
