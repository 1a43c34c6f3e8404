ghost use Rattle.std.specs.Prelude.{◌≡◌, ◌≢◌, ◌≤◌, ℕ, None, Some};
ghost use Rattle.base_object.specs.Streams.{stream_at};

/// The streams of at most four downloaders, each at the place of its number.
#[derive(Debug, Drop)]
pub struct Streams<S> {
    pub first: Option<S>,
    pub second: Option<S>,
    pub third: Option<S>,
    pub fourth: Option<S>,
}

impl<S: Drop> Streams<S> {
    /// No stream; takes no memory.
    pub fn new() -> Streams<S>
        ensures { (run : ℕ) → stream_at run result ≡ None }
    {
        Streams {
            first: None,
            second: None,
            third: None,
            fourth: None,
        }
    }

    /// The stream at a place, which is free afterwards.
    pub fn take(&mut self, run: u8) -> Option<S>
        requires { run ≤ 3 }
        ensures result { result ≡ stream_at run self.old }
        ensures free { stream_at run self.new ≡ None }
        ensures others { (q : ℕ) → q ≢ run → stream_at q self.new ≡ stream_at q self.old }
    {
        match run {
            0 => self.first.take(),
            1 => self.second.take(),
            2 => self.third.take(),
            _ => self.fourth.take(),
        }
    }

    /// Puts a stream at a place; the one that stood there is gone.
    pub fn put(&mut self, run: u8, stream: S)
        requires { run ≤ 3 }
        ensures there { stream_at run self.new ≡ Some stream }
        ensures others { (q : ℕ) → q ≢ run → stream_at q self.new ≡ stream_at q self.old }
    {
        match run {
            0 => self.first = Some(stream),
            1 => self.second = Some(stream),
            2 => self.third = Some(stream),
            _ => self.fourth = Some(stream),
        }
    }
}
