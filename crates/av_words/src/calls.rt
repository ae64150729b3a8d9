ghost use Rattle.std.specs.Prelude.{◌≡◌, MatchOption, map};
ghost use Rattle.av_words.specs.Requests.{AskCalls, AskNoCalls};

/// The root and the class's name, where the words are `calls`, a root and a name.
pub fn calls_asked<'a>(words: &'a [&'a str]) -> Option<(&'a str, &'a str)>
    ensures { MatchOption result (AskNoCalls (map (λ w. w.now) words.entry.now))
        (λ named. AskCalls (map (λ w. w.now) words.entry.now) named.0.now named.1.now) }
{
    let [command, root, name] = words else {
        return None;
    };
    if *command != "calls" {
        return None;
    }
    Some((*root, *name))
}
