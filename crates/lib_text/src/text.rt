ghost use Rattle.std.specs.Prelude.{◌≡◌};
ghost use Rattle.lib_text.specs.Text.{library_text, text_behind};

use term_core::App;

/// The library's source text.
const SOURCE: &str = "append([], L, L).
append([X|Xs], L, [X|Ys]) :- append(Xs, L, Ys).
member(X, [Y|Ys]) :- '$member'(Ys, X, Y).
'$member'(_, X, X).
'$member'([Y|Ys], X, _) :- '$member'(Ys, X, Y).
memberchk(X, [Y|Ys]) :- '$member'(Ys, X, Y), !.
select(X, [X|Xs], Xs).
select(X, [Y|Ys], [Y|Zs]) :- select(X, Ys, Zs).
reverse(L, R) :- '$reverse'(L, [], R).
'$reverse'([], R, R).
'$reverse'([X|Xs], A, R) :- '$reverse'(Xs, [X|A], R).
nth0(I, L, X) :- '$nth'(L, 0, I, X).
nth1(I, L, X) :- '$nth'(L, 1, I, X).
'$nth'(L, B, I, X) :- integer(I), !, I >= B, K is I - B, '$nth_at'(K, L, X).
'$nth'([Y|Ys], B, I, X) :- var(I), '$nth_any'(Ys, Y, B, I, X).
'$nth_at'(K, [Y|Ys], X) :- ( K =:= 0 -> X = Y ; J is K - 1, '$nth_at'(J, Ys, X) ).
'$nth_any'(_, Y, B, B, Y).
'$nth_any'([Z|Zs], _, B, I, X) :- C is B + 1, '$nth_any'(Zs, Z, C, I, X).
last([X|Xs], Y) :- '$last'(Xs, X, Y).
'$last'([], X, X).
'$last'([Y|Ys], _, X) :- '$last'(Ys, Y, X).
maplist(G, L) :- '$maplist'(L, G).
'$maplist'([], _).
'$maplist'([X|Xs], G) :- call(G, X), '$maplist'(Xs, G).
maplist(G, L, M) :- '$maplist'(L, M, G).
'$maplist'([], [], _).
'$maplist'([X|Xs], [Y|Ys], G) :- call(G, X, Y), '$maplist'(Xs, Ys, G).
maplist(G, L, M, N) :- '$maplist'(L, M, N, G).
'$maplist'([], [], [], _).
'$maplist'([X|Xs], [Y|Ys], [Z|Zs], G) :- call(G, X, Y, Z), '$maplist'(Xs, Ys, Zs, G).
maplist(G, L, M, N, O) :- '$maplist'(L, M, N, O, G).
'$maplist'([], [], [], [], _).
'$maplist'([X|Xs], [Y|Ys], [Z|Zs], [W|Ws], G) :-
    call(G, X, Y, Z, W), '$maplist'(Xs, Ys, Zs, Ws, G).
foldl(G, L, A, B) :- '$foldl'(L, G, A, B).
'$foldl'([], _, A, A).
'$foldl'([X|Xs], G, A, C) :- call(G, X, A, B), '$foldl'(Xs, G, B, C).
include(G, L, M) :- '$include'(L, G, M).
'$include'([], _, []).
'$include'([X|Xs], G, M) :- ( call(G, X) -> M = [X|N] ; M = N ), '$include'(Xs, G, N).
exclude(G, L, M) :- '$exclude'(L, G, M).
'$exclude'([], _, []).
'$exclude'([X|Xs], G, M) :- ( call(G, X) -> M = N ; M = [X|N] ), '$exclude'(Xs, G, N).
sum_list(L, S) :- '$sum'(L, 0, S).
'$sum'([], S, S).
'$sum'([X|Xs], A, S) :- B is A + X, '$sum'(Xs, B, S).
numlist(L, H, R) :- '$int'(L), '$int'(H), L =< H, '$numlist'(L, H, R).
'$numlist'(L, H, [L|T]) :- ( L =:= H -> T = [] ; M is L + 1, '$numlist'(M, H, T) ).
succ(X, Y) :- integer(X), !, X >= 0, Y is X + 1.
succ(X, Y) :- '$int'(Y), Y > 0, X is Y - 1.
between(L, H, X) :- '$int'(L), ( H == inf -> true ; '$int'(H) ), '$between'(X, L, H).
'$between'(X, L, H) :- integer(X), !, X >= L, ( H == inf -> true ; X =< H ).
'$between'(X, L, H) :- var(X), !, ( H == inf -> '$up'(L, X) ; L =< H, '$upto'(L, H, X) ).
'$between'(X, _, _) :- '$int'(X).
'$up'(L, L).
'$up'(L, X) :- M is L + 1, '$up'(M, X).
'$upto'(L, H, X) :- L =:= H, !, X = L.
'$upto'(L, _, L).
'$upto'(L, H, X) :- M is L + 1, '$upto'(M, H, X).
length(L, N) :- ( var(N) -> true ; '$int'(N) ), '$skip_list'(L, K, T), '$length'(T, K, N).
'$length'(T, K, N) :- T == [], !, N = K.
'$length'(T, K, N) :- var(T), integer(N), !, N >= K, D is N - K, '$fill'(D, T).
'$length'(T, K, N) :- var(T), '$grow'(T, K, N).
'$fill'(D, T) :- ( D =:= 0 -> T = [] ; T = [_|U], E is D - 1, '$fill'(E, U) ).
'$grow'([], K, K).
'$grow'([_|T], K, N) :- M is K + 1, '$grow'(T, M, N).
'$int'(X) :- integer(X), !.
'$int'(X) :- var(X), !, throw(error(instantiation_error, none)).
'$int'(X) :- throw(error(type_error(integer, X), none)).
";

/// The source text of the library: predicates on lists (with `maplist/2` to `maplist/5`, `foldl/4`, `include/3` and `exclude/3`)
/// and on integers. Predicates whose names begin with `$` are the library's own.
#[tactic(auto, unfolding(crate::specs::Text::library_lines))]
pub fn source() -> &'static str
    ensures { result.now ≡ library_text }
{
    SOURCE
}

/// What School has behind the library's text.
const SCHOOL: &str = "add_all(L, S) :- foldl('$add', L, 0, S).
'$add'(X, A, B) :- B is A + X.
twice(X, Y) :- Y is 2 * X.
";

/// The source text that an application has behind the library's: that of `School`, and `''` for the others.
#[tactic(auto, unfolding(crate::specs::Text::text_behind))]
pub fn source_of(app: App) -> &'static str
    ensures { result.now ≡ text_behind app }
{
    match app {
        App::School => SCHOOL,
        App::Sandbox | App::Numbers => "",
    }
}
