// What the tasks so far have done with a word.

ghost use Rattle.std.specs.Prelude.{◌≡◌, ◌<◌, ◌^◌, cond, ℕ};
ghost use Rattle.svc_depend_laws.specs.Over.{lesser};
ghost use Rattle.svc_depend.specs.Links.{origin_of};
ghost use Rattle.svc_depend.specs.Words.{distance_back, is_touched, read_by, untouched, written_by};

/// What the tasks so far have done with a word.
#[derive(Clone, Copy)]
pub struct Word {
    /// The number after that of the last task that needs it, or 0.
    pub reader: u32,
    /// The number after that of the last task that wrote it, or 0.
    pub writer: u32,
    /// The time of its last store, or 0.
    pub stored: u64,
    /// How many tasks need it.
    pub readers: u64,
    /// How many tasks wrote it.
    pub writers: u64,
    /// The least distance from a task that needs it to the one from which it comes.
    pub nearest: Option<u32>,
}

/// What a read of a word comes to.
#[derive(Clone, Copy)]
pub(crate) struct Read {
    /// The word after it.
    pub(crate) word: Word,
    /// 1 where the task needs the word here for the first time.
    pub(crate) needs: u64,
    /// 1 where it does, and the word comes from no task.
    pub(crate) memory: u64,
    /// How far back the word comes from where it does.
    pub(crate) distance: Option<u32>,
    /// The time of the store that the read waits for.
    pub(crate) ready: u64,
}

/// What a store to a word comes to.
#[derive(Clone, Copy)]
pub(crate) struct Write {
    /// The word after it.
    pub(crate) word: Word,
    /// 1 where the task hadn't written the word.
    pub(crate) stores: u64,
}

fn one_if(holds: bool) -> u64
    ensures { result ≡ cond holds 1 0 }
{
    if holds { 1 } else { 0 }
}

/// The lesser of two distances, each of which may be missing.
pub(crate) fn lesser(a: Option<u32>, b: Option<u32>) -> Option<u32>
    ensures { result ≡ lesser a b }
{
    match (a, b) {
        (None, b) => b,
        (Some(a), None) => Some(a),
        (Some(a), Some(b)) => Some(a.min(b)),
    }
}

// How far before a task the last other one is that wrote a word.
fn distance_back(task: u32, writer: u32) -> Option<u32>
    requires { task < 2 ^ 31 }
    ensures { result ≡ distance_back task writer }
{
    if writer == 0 || writer > task {
        None
    } else {
        Some(task + 1 - writer)
    }
}

impl Word {
    /// A word that no task has touched.
    pub(crate) fn untouched() -> Word
        ensures { result ≡ untouched }
    {
        Word {
            reader: 0,
            writer: 0,
            stored: 0,
            readers: 0,
            writers: 0,
            nearest: None,
        }
    }

    // Whether this task, the last one so far, needs it or wrote it.
    fn is_touched(&self, task: u32) -> bool
        requires { task < 2 ^ 31 }
        ensures { result ≡ is_touched task self.now }
    {
        self.reader == task + 1 || self.writer == task + 1
    }

    /// The task from which it comes, where this one, which reads it, needs it here for the first time.
    pub(crate) fn origin(&self, task: u32) -> Option<u32>
        requires { task < 2 ^ 31 }
        ensures { result ≡ origin_of task self.now }
    {
        if self.is_touched(task) || self.writer == 0 {
            None
        } else {
            Some(self.writer - 1)
        }
    }

    /// This task reads it.
    pub(crate) fn read_by(self, task: u32) -> Read
        requires task { task < 2 ^ 31 }
        requires few { self.readers < 2 ^ 63 }
        ensures { result ≡ read_by task self }
    {
        if self.is_touched(task) {
            return Read {
                word: self,
                needs: 0,
                memory: 0,
                distance: None,
                ready: 0,
            };
        }
        let distance = distance_back(task, self.writer);
        Read {
            word: Word {
                reader: task + 1,
                readers: self.readers + 1,
                nearest: lesser(distance, self.nearest),
                ..self
            },
            needs: 1,
            memory: one_if(self.writer == 0),
            distance,
            ready: self.stored,
        }
    }

    /// This task writes it at this time.
    pub(crate) fn written_by(self, task: u32, now: u64) -> Write
        requires task { task < 2 ^ 31 }
        requires few { self.writers < 2 ^ 63 }
        ensures { result ≡ written_by task now self }
    {
        let stores = one_if(self.writer != task + 1);
        Write {
            word: Word {
                writer: task + 1,
                writers: self.writers + stores,
                stored: now,
                ..self
            },
            stores,
        }
    }
}
