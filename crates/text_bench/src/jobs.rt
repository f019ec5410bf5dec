use anyhow::{Result, bail};

/// Where in a text an operation works.
#[derive(Clone, Copy, Debug)]
pub enum Site {
    Front,
    Middle,
    End,
    /// Each time at another place.
    Anywhere,
}

/// What an operation is run on.
#[derive(Clone, Copy, Debug)]
pub struct Job {
    /// The characters of a text, or the bytes of another input.
    pub size: usize,
    /// How often it is run, or how many edits, positions or bytes of a piece it has.
    pub count: usize,
    pub site: Site,
}

/// The number that a word writes in decimal.
fn number(word: Option<&String>) -> Result<usize> {
    let Some(word) = word else {
        bail!("give an operation, a size and a count");
    };
    Ok(word.parse::<usize>()?)
}

/// The place that a word names: any, where there is no word.
fn site_of(word: Option<&String>) -> Result<Site> {
    let Some(word) = word else {
        return Ok(Site::Anywhere);
    };
    match word.as_str() {
        "front" => Ok(Site::Front),
        "middle" => Ok(Site::Middle),
        "end" => Ok(Site::End),
        "random" => Ok(Site::Anywhere),
        word => bail!("{word} is none of front, middle, end and random"),
    }
}

/// The job of the words that stand behind the operation.
pub fn job_of(words: &[String]) -> Result<Job> {
    Ok(Job {
        size: number(words.get(1))?,
        count: number(words.get(2))?,
        site: site_of(words.get(3))?,
    })
}
