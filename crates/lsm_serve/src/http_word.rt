//! The words by which a request of HTTP is known.

ghost use Rattle.std.specs.Prelude.{◌≡◌, ◌↔◌, IfNone, IfSome, IsTrue};
ghost use Rattle.lsm_resp.specs.Requests.{words_of};
ghost use Rattle.lsm_serve.specs.HttpWords.{BeginsHttp, IsHttp, IsNoHttp, http_name};

use std::fmt;
use std::fmt::Display;

/// A word with which no client of Redis begins a request. A web page can send requests of HTTP to any port, and the lines in
/// their bodies would be read as inline requests.
#[derive(Clone, Copy, Debug, PartialEq, Eq)]
pub enum HttpWord {
    /// The method `POST`.
    Post,
    /// The header `Host:`, which each request of HTTP has.
    Host,
}

impl HttpWord {
    /// The word, as it is written in HTTP.
    pub fn name(self) -> &'static str
        ensures { result.now ≡ http_name self }
    {
        match self {
            HttpWord::Post => "POST",
            HttpWord::Host => "Host:",
        }
    }

    /// Whether it is this word, in either case.
    fn is_in(self, name: &[u8]) -> bool
        ensures { IsTrue result ↔ IsHttp name.now self }
    {
        name.eq_ignore_ascii_case(self.name().as_bytes())
    }

    /// The word with which a request begins, in either case, if it is one of these.
    pub fn of(words: &[&[u8]]) -> Option<HttpWord>
        ensures some { IfSome result (λ word. BeginsHttp word (words_of words.now)) }
        ensures none { IfNone result (IsNoHttp (words_of words.now)) }
    {
        let Some((name, _)) = words.split_first() else {
            return None;
        };
        if HttpWord::Post.is_in(name) {
            return Some(HttpWord::Post);
        }
        if HttpWord::Host.is_in(name) {
            return Some(HttpWord::Host);
        }
        None
    }
}

impl Display for HttpWord {
    fn fmt<W: fmt::Write>(&self, f: &mut fmt::Formatter<W>) -> fmt::Result {
        f.write_str(self.name())
    }
}
