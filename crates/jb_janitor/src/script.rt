//! What a janitor does, as texts for the shell.

/// The word by which a janitor is told that its run draws a status line.
pub(crate) const DRAWS: &str = "draws";

/// Writes a line on standard error once no signal but SIGKILL ends it any more, and has the shell run its name, which is the other text, in a
/// session of its own where there is a `setsid`, with the words behind it and with what the system says of this process: then no
/// signal to the run's group reaches it. Where the run draws a status line, standard error is the run's then. Standard output is what the run is in
/// its folder by: nobody can write there, and the shell has it until it ends.
pub(crate) const START: &str = "\
trap \"\" HUP INT QUIT TERM
drawn=/dev/null
[ -n \"$3\" ] && [ -w \"/proc/$PPID/fd/2\" ] && drawn=/proc/$PPID/fd/2
exec 3>&2 2>\"$drawn\"
echo >&3
exec 3>&-
read -r self </proc/self/stat
command -v setsid >/dev/null && exec setsid /bin/sh -c \"$0\" dmk \"$1\" \"$2\" \"$self\"
set -- \"$1\" \"$2\" \"$self\"
eval \"$0\"";

/// Reads on standard input which recipes begin, each with the time of its target's file and the target, and which end. Once nothing more
/// comes and some are under way, it ends their processes, which it knows by their environment, and removes the files that these have
/// changed. A recipe that has heard a signal itself has a while to see to its own ends; what then goes on is told to end, and what
/// doesn't is killed. Of processes it looks twice: one that is just being started has no environment yet. Janitors of runs below are
/// waited for.
///
/// The words are the run's name, the state's name, and what the system says of the process. A terminal on standard error has the run's
/// status line: it is cleared, unless whoever started the run has the terminal again. Meanwhile a file beside the state has the janitor's
/// name, for which the next run waits.
pub(crate) const JANITOR: &str = "\
trap \"\" HUP INT QUIT TERM
run=$1 busy=$2.stopping under=\" \"
set -- ${3##*) }
group=$3 session=$4 began=${20}
while IFS= read -r word; do
    case $word in
    +*)
        IFS= read -r stamp && IFS= read -r target || break
        id=${word#+} under=\"$under${word#+} \"
        eval \"stamp$id=\\$stamp target$id=\\$target\" ;;
    -*)
        id=${word#-} under=\"${under%% ${word#-} *} ${under#* ${word#-} }\"
        unset \"stamp$id\" \"target$id\" ;;
    esac
done
[ \"$under\" = \" \" ] && exit
name=${run%%:*}:$$:$began
[ -h \"$busy\" ] || { echo \"$name\" >>\"$busy\"; } 2>/dev/null
if [ -t 2 ]; then
    { read -r leader </proc/$session/stat; } 2>/dev/null && set -- ${leader##*) } || set --
    [ \"${6:--1}\" -gt 0 ] && [ \"$6\" != \"$group\" ] || printf '\\r\\033[K' >&2
fi
PATH=$PATH:/usr/bin:/bin LC_ALL=C
export LC_ALL
set --
for id in $under; do
    set -- \"$@\" -e \"[$run.$id]\"
done
seek() {
    left= janitors=\" \"
    found=$(grep -lsF \"$@\" /proc/[0-9]*/environ)
    [ -n \"$found\" ] || return
    for file in $(grep -lsF DMK_JANITOR= $found); do
        janitors=\"$janitors$file \"
    done
    for file in $found; do
        case $janitors in
        *\" $file \"*) ;;
        *) file=${file%/*} left=\"$left ${file##*/}\" ;;
        esac
    done
}
clock() {
    read -r now rest </proc/uptime
    now=${now%.*}${now#*.} now=${now#0}
}
{
    clock
    start=$now calm=0 told=\" \"
    while [ $calm -lt 2 ] && [ $((now - start)) -lt 400 ]; do
        seek \"$@\"
        clock
        calm=$((calm + 1))
        [ -z \"$found\" ] || calm=0
        if [ $((now - start)) -ge 100 ]; then
            kill -KILL $left
        elif [ $((now - start)) -ge 20 ]; then
            for process in $left; do
                case $told in
                *\" $process \"*) ;;
                *) kill -TERM $process; kill -CONT $process; told=\"$told$process \" ;;
                esac
            done
        fi
        sleep 0.02 || sleep 1
    done
    for id in $under; do
        eval \"stamp=\\$stamp$id target=\\$target$id\"
        [ -n \"$stamp\" ] && [ -f \"$target\" ] && [ ! -h \"$target\" ] || continue
        if [ \"$stamp\" != none ]; then
            found=$(stat -c \"%Y %y\" -- \"$target\") || continue
            rest=${found#*.}
            [ \"$stamp\" != \"${found%% *}.${rest%% *}\" ] || continue
        fi
        rm -f -- \"$target\"
    done
    first= second=
    { read -r first; read -r second; } <\"$busy\"
    [ \"${first:-$name}$second\" != \"$name\" ] || rm -f -- \"$busy\"
} >/dev/null 2>&1";
